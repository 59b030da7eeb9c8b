//! What commands use of the system, as traits: words, files, turns, ports, scripts and lines. A command's contract says which of their
//! calls it makes.

use command_line::{Invocation, Refusal, parse};
use scripts::{ScriptFault, play};
use sector::{FileSectors, Sectors};
use std::alloc::Global;
use std::fs::File;
use std::io::{self, Read, Write};
use std::net::SocketAddr;
use std::rt::Files;
use std::time::Clock;

/// What says which command is asked for.
pub trait Words {
    ghost use Rattle.std.specs.Prelude.{⊤, Result, IfOk};
    ghost use Rattle.command_line.specs.Ranges.{IsInRange};
    ghost use Rattle.command_line.specs.declared.invocation.Invocation.{Invocation};
    ghost use Rattle.command_line.specs.declared.refusals.Refusal.{Refusal};

    /// `asks words answer`: one call of `asked`.
    ghost asks: { Self → Result Invocation Refusal → Type 0 } = { λ _ _. ⊤ };

    /// The command that is asked for, with numbers in its range, or why there is none.
    fn invocation(&self, alloc: Global) -> Result<Invocation<'_>, Refusal>
        ensures range { IfOk result IsInRange }
        ensures asks { asks self.now result };
}

/// What opens and makes data files.
pub trait DataFiles {
    ghost use Rattle.std.specs.Prelude.{⊤, ◌≡◌, ℕ, List, Result, IfOk};
    ghost use Rattle.std.specs.declared.io.Error.{Error};

    /// A data file.
    type Device: Sectors + Drop;

    /// `opens before name result after`: one call of `open`.
    ghost opens: { Self → List ℕ → Result Self.Device Error → Self → Type 0 } = { λ _ _ _ _. ⊤ };

    /// `reads before name result after`: one call of `open_to_read`.
    ghost reads: { Self → List ℕ → Result Self.Device Error → Self → Type 0 } = { λ _ _ _ _. ⊤ };

    /// `checks before name result after`: one call of `open_to_check`.
    ghost checks: { Self → List ℕ → Result Self.Device Error → Self → Type 0 } = { λ _ _ _ _. ⊤ };

    /// `makes before name sectors result after`: one call of `create`.
    ghost makes: { Self → List ℕ → ℕ → Result Self.Device Error → Self → Type 0 } = { λ _ _ _ _ _. ⊤ };

    /// `closes before file after`: one call of `close`, of a file as it then was.
    ghost closes: { Self → Self.Device → Self → Type 0 } = { λ _ _ _. ⊤ };

    /// Opens a data file.
    fn open(&mut self, data: &str) -> io::Result<Self::Device>
        ensures { opens self.old data.now result self.new };

    /// Opens a data file to be read alone.
    fn open_to_read(&mut self, data: &str) -> io::Result<Self::Device>
        ensures { reads self.old data.now result self.new };

    /// Opens a data file to be checked: to be read alone, and from the device where the system has copies of it.
    fn open_to_check(&mut self, data: &str) -> io::Result<Self::Device>
        ensures { checks self.old data.now result self.new };

    /// Makes a data file of so many sectors. Its name must be free.
    fn create(&mut self, data: &str, sectors: u64) -> io::Result<Self::Device>
        ensures makes { makes self.old data.now sectors result self.new }
        ensures size { IfOk result (λ device. Self.Device.size device ≡ sectors) };

    /// Closes a data file, of which nothing more is called.
    fn close(&mut self, device: Self::Device)
        ensures { closes self.old device self.new };
}

/// What serves in turns.
pub trait Turns {
    ghost use Rattle.std.specs.Prelude.{⊤, Bool, Result};
    ghost use Rattle.std.specs.declared.io.Error.{Error};
    ghost use Rattle.std.specs.declared.net.socket_addr.SocketAddr.{SocketAddr};

    /// The hub whose sessions it serves.
    type Hub;

    /// `turns before result after`: one call of `next_turn`.
    ghost turns: { Self → Result (Unit {0}) Error → Self → Type 0 } = { λ _ _ _. ⊤ };

    /// `stops server answer`: one call of `is_stopped`.
    ghost stops: { Self → Bool → Type 0 } = { λ _ _. ⊤ };

    /// `is_at server result`: one call of `address`.
    ghost is_at: { Self → Result SocketAddr Error → Type 0 } = { λ _ _. ⊤ };

    /// `gives_back server hub`: one call of `into_hub`.
    ghost gives_back: { Self → Self.Hub → Type 0 } = { λ _ _. ⊤ };

    /// One turn: it waits until there is something to do, and does it. An error is the wait's.
    fn next_turn(&mut self) -> io::Result<()>
        ensures { turns self.old result self.new };

    /// Has the store stopped?
    fn is_stopped(&self) -> bool
        ensures { stops self.now result };

    /// The address that it listens at.
    fn address(&self) -> io::Result<SocketAddr>
        ensures { is_at self.now result };

    /// Ends serving, and gives the hub back.
    fn into_hub(self) -> Self::Hub
    where
        Self: Sized,
        ensures { gives_back self result };
}

/// A hub that no server took, and why.
#[derive(Drop)]
pub struct Unserved<H> {
    /// Why: the system's error, or out of memory.
    pub error: io::Error,
    /// The hub, as it was.
    pub hub: H,
}

/// What listens at addresses, for the sessions of such a hub.
pub trait Ports<H> {
    ghost use Rattle.std.specs.Prelude.{⊤, ◌≡◌, IfErr, Result};
    ghost use Rattle.std.specs.declared.net.socket_addr.SocketAddr.{SocketAddr};
    ghost use Rattle.commands.specs.declared.system.Unserved.{Unserved};

    /// What serves a hub at an address.
    type Server: Turns<Hub = H> + Drop;

    /// The hubs that it takes.
    ghost takes: { H → Type 0 } = { λ _. ⊤ };

    /// `listens before address hub result after`: one call of `listen`.
    ghost listens: { Self → SocketAddr → H → Result Self.Server (Unserved H) → Self → Type 0 } = { λ _ _ _ _ _. ⊤ };

    /// Listens at an address for the sessions of a hub. Where that fails, the hub is returned as it was.
    fn listen(
        &mut self,
        alloc: Global,
        address: SocketAddr,
        hub: H,
    ) -> Result<Self::Server, Unserved<H>>
        requires { takes hub }
        ensures listens { listens self.old address hub result self.new }
        ensures back { IfErr result (λ unserved. unserved.hub ≡ hub) };
}

/// What plays scripts, and prints to such an output.
pub trait Scripts<O> {
    ghost use Rattle.std.specs.Prelude.{⊤, ◌≤◌, ℕ, Result};
    ghost use Rattle.scripts.specs.declared.faults.ScriptFault.{ScriptFault};
    ghost use Rattle.scripts.specs.declared.playing.TheConstants.{MEMORY_SECTORS_MAX};

    /// `plays script sectors out result after`: one call of `play`, with the output before and after it.
    ghost plays: { Self → ℕ → O → Result (Unit {0}) ScriptFault → O → Type 0 } = { λ _ _ _ _ _. ⊤ };

    /// Plays a script over a device in memory of so many sectors, `MEMORY_SECTORS_MAX` at most.
    fn play(self, alloc: Global, sectors: u64, out: &mut O) -> Result<(), ScriptFault>
    where
        Self: Sized,
        requires { sectors ≤ MEMORY_SECTORS_MAX }
        ensures { plays self sectors out.old result out.new };
}

/// What takes lines. A text of several lines goes as one.
pub trait Lines {
    ghost use Rattle.std.specs.Prelude.{⊤, ℕ, List, Result};
    ghost use Rattle.std.specs.declared.io.Error.{Error};

    /// `writes before line result after`: one call of `write_line`.
    ghost writes: { Self → List ℕ → Result (Unit {0}) Error → Self → Type 0 } = { λ _ _ _ _. ⊤ };

    /// Writes a line, and flushes.
    fn write_line(&mut self, line: &[u8]) -> io::Result<()>
        ensures { writes self.old line.now result self.new };
}

/// What a command calls: files, ports, the output and the error output.
#[derive(Drop)]
pub struct Environment<F, P, O, E> {
    /// What opens and makes data files.
    pub files: F,
    /// What listens at addresses.
    pub ports: P,
    /// The output.
    pub out: O,
    /// The error output.
    pub err: E,
    /// Whether the error output is a terminal.
    pub is_terminal: bool,
}

/// Each writer: a line leaves in one write, and is flushed.
impl<W: Write> Lines for W {
    ghost use Rattle.std.specs.Prelude.{OnOk};
    ghost use Rattle.std.specs.Io.KnownBytes.{Appends};

    ghost writes = { λ old line result new. OnOk result (Appends (W.contents old) (W.contents new) line) };

    fn write_line(&mut self, line: &[u8]) -> io::Result<()> {
        self.write_all(line)?;
        self.flush()
    }
}

/// Each reader: its bytes are the script.
impl<I: Read + Drop, O: Write> Scripts<O> for I {
    ghost use Rattle.scripts.specs.Transcript.{PlaysKnown, opening};

    ghost plays = { λ reader sectors out result printed.
        PlaysKnown (opening sectors) (I.remaining reader) result (O.contents out) (O.contents printed) };

    fn play(self, alloc: Global, sectors: u64, out: &mut O) -> Result<(), ScriptFault> {
        play(alloc, sectors, self, out)
    }
}

/// The words of a command line, the program's name first.
#[derive(Drop)]
pub struct CommandLine<'a> {
    words: &'a [&'a str],
}

impl<'a> CommandLine<'a> {
    ghost use Rattle.std.specs.Prelude.{◌≡◌, map};
    ghost use Rattle.commands.specs.Words.{argument_words};

    /// A command line of these words. Takes no memory.
    pub fn new(words: &'a [&'a str]) -> Self
        ensures { argument_words result ≡ map (λ word. word.now) words.now }
    {
        CommandLine { words }
    }
}

impl Words for CommandLine<'_> {
    ghost use Rattle.command_line.specs.Asking.{AnswersTo};
    ghost use Rattle.commands.specs.Words.{argument_words};

    ghost asks = { λ line result. AnswersTo (argument_words line) result };

    fn invocation(&self, alloc: Global) -> Result<Invocation<'_>, Refusal> {
        parse(alloc, self.words)
    }
}

/// The files of the system.
#[derive(Drop)]
pub struct SystemFiles<'a, R> {
    rt: &'a R,
}

impl<'a, R> SystemFiles<'a, R> {
    /// Opens through this runtime. Takes no memory.
    pub fn new(rt: &'a R) -> Self {
        SystemFiles { rt }
    }
}

impl<R: Files<File = File> + Clock> DataFiles for SystemFiles<'_, R> {
    ghost use Rattle.sector.specs.FileDevices.{ClosesFile, MakesFile, OpensFile, OpensFileToCheck, OpensFileToRead};

    ghost opens = { λ _ name result _. OpensFile name result };

    ghost reads = { λ _ name result _. OpensFileToRead name result };

    ghost checks = { λ _ name result _. OpensFileToCheck name result };

    ghost makes = { λ _ name count result _. MakesFile name count result };

    ghost closes = { λ _ device _. ClosesFile device };

    type Device = FileSectors;

    fn open(&mut self, data: &str) -> io::Result<FileSectors> {
        FileSectors::open(self.rt, data)
    }

    fn open_to_read(&mut self, data: &str) -> io::Result<FileSectors> {
        FileSectors::open_to_read(self.rt, data)
    }

    fn open_to_check(&mut self, data: &str) -> io::Result<FileSectors> {
        FileSectors::open_to_check(self.rt, data)
    }

    fn create(&mut self, data: &str, sectors: u64) -> io::Result<FileSectors> {
        FileSectors::create(self.rt, data, sectors)
    }

    fn close(&mut self, device: FileSectors) {
        device.close();
    }
}
