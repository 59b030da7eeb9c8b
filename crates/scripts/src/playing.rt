//! Plays a script: its sessions over a store on a device in memory, line by line.
ghost use Rattle.std.specs.Prelude.{◌≡◌, ◌≤◌, IfOk, IfErr};
ghost use Rattle.sessions.specs.SessionStreams.{HubState};
ghost use Rattle.sessions.specs.StandsFor.{StandsFor};
ghost use Rattle.scripts.specs.Faults.{IsFromReading, IsOpening};
ghost use Rattle.scripts.specs.Transcript.{opening, place_of, received, PlaysKnown};
ghost use Rattle.scripts.specs.Calls.{IsAtScene, AtScene, LooksUp, ReadsNext, ServesOrNot, WritesOrFails, RunsText};
ghost use Rattle.scripts.specs.Calls.{RunsLine};
ghost use Rattle.scripts.specs.declared.playing.TheConstants.{MEMORY_SECTORS_MAX};

use crate::faults::ScriptFault;
use crate::lines::{Line, write_reply};
use commit_log::format;
use engine::Engine;
use sector::{MemSectors, Sectors};
use sessions::{Event, Hub, Outcome, SESSIONS_MAX, Status};
use std::alloc::Global;
use std::io::{BufRead, BufReader, ErrorKind, Read, Write};

/// The most sectors that the device in memory of a script has, which are 32 MiB.
pub const MEMORY_SECTORS_MAX: u64 = 65_536;

/// Runs the lines of a reader over a formatted device in memory, which has so many sectors, and prints each reply.
///
/// A line is a label, a decimal from 0 to 999999, and one to four words, parted by spaces. It is one request of the label's session,
/// which joins at its first line. An empty line is skipped, and one of a session that is `Ending` prints nothing.
///
/// A fault is `BadLine`, `Crowded` for the 129th label, `File` where the reader or the writer fails, `Memory`, or `Log` where the
/// device has no room for a log or fails before the first line. What was printed is then what the lines before print; where the writer
/// failed, a beginning of the next line's may follow. It takes the memory of the device, of one line and its frame, and of the sessions
/// and their requests.
pub fn play<R: Read + Drop, O: Write>(
    alloc: Global,
    sectors: u64,
    reader: R,
    out: &mut O,
) -> Result<(), ScriptFault>
    requires { sectors ≤ MEMORY_SECTORS_MAX }
    ensures { PlaysKnown (opening sectors) (R.remaining reader) result (O.contents out.old) (O.contents out.new) }
{
    let mut script = open(alloc, sectors)?;
    let mut lines = BufReader::new(alloc, reader)?;
    script.play_lines(alloc, &mut lines, out)
}

// A script over an empty log.
fn open(alloc: Global, sectors: u64) -> Result<Script<MemSectors>, ScriptFault>
    ensures at { IfOk result (λ script. IsAtScene script (opening sectors)) }
    ensures faults { IfErr result IsOpening }
{
    let mut device = MemSectors::new(alloc, sectors)?;
    format(&mut device)?;
    let engine = Engine::open(alloc, device)?;
    Ok(Script {
        hub: Hub::new(alloc, engine),
        labels: Vec::new(alloc),
        frame: Vec::new(alloc),
        reply: Vec::new(alloc),
    })
}

// The sessions of a script. The n-th label that comes names the session n.
#[derive(Drop)]
struct Script<D: Sectors> {
    hub: Hub<D>,
    labels: Vec<usize>,
    frame: Vec<u8>,
    reply: Vec<u8>,
}

impl<D: Sectors> Script<D> {
    // Runs the lines of a reader, to its end.
    fn play_lines<R: BufRead, O: Write>(
        &mut self,
        alloc: Global,
        reader: &mut R,
        out: &mut O,
    ) -> Result<(), ScriptFault>
        ensures { AtScene self.old
            (λ scene. PlaysKnown scene (R.remaining reader.old) result (O.contents out.old) (O.contents out.new)) }
    {
        let mut text = Vec::new(alloc);
        for number in 1..u64::MAX {
            if !next_line(reader, &mut text)? {
                self.hub.law_is_lawful();
                return Ok(());
            }
            self.play_text(number, &text, out)?;
        }
        Err(ScriptFault::File)
    }

    // Runs the text of a line, without its end.
    fn play_text<O: Write>(
        &mut self,
        number: u64,
        text: &[u8],
        out: &mut O,
    ) -> Result<(), ScriptFault>
        ensures { AtScene self.old
            (λ scene. RunsText scene number text.now result self.new (O.contents out.old) (O.contents out.new)) }
    {
        if text.is_empty() {
            return Ok(());
        }
        let Some(line) = Line::read(text) else {
            return Err(ScriptFault::BadLine(number));
        };
        let Some(session) = self.session(line.label())? else {
            return Err(ScriptFault::Crowded(number));
        };
        self.answer(session, &line, out)
    }

    // The session of a label, which joins where the label is new. None where it is one too many.
    fn session(&mut self, label: usize) -> Result<Option<u64>, ScriptFault>
        ensures { AtScene self.old (λ scene. LooksUp scene label result self.new) }
    {
        if let Some(place) = place_of(&self.labels, label) {
            return Ok(Some(place as u64));
        }
        if self.labels.len() >= SESSIONS_MAX {
            return Ok(None);
        }
        let session = self.labels.len() as u64;
        self.labels.push(label)?;
        match self.hub.step(&Event::Joined(session)) {
            Outcome::Done => Ok(Some(session)),
            _ => Err(ScriptFault::Memory),
        }
    }

    // One request, and its reply, unless the session is no longer open.
    fn answer<O: Write>(
        &mut self,
        session: u64,
        line: &Line<'_>,
        out: &mut O,
    ) -> Result<(), ScriptFault>
        ensures { AtScene self.old
            (λ here. RunsLine here session line.now result self.new (O.contents out.old) (O.contents out.new)) }
    {
        match self.hub.status(session) {
            Status::Open => {}
            _ => return Ok(()),
        }
        self.frame.clear();
        line.write_frame(&mut self.frame)?;
        serve(&mut self.hub, session, &self.frame)?;
        self.reply.clear();
        let pending = self.hub.pending(session);
        let sent = pending.len();
        write_reply(line.label(), pending, &mut self.reply)?;
        write_out(&self.reply, out)?;
        let _ = self.hub.step(&Event::Sent(session, sent));
        Ok(())
    }
}

// Reads the next line, without its end. False where none is left.
fn next_line<R: BufRead>(reader: &mut R, text: &mut Vec<u8>) -> Result<bool, ScriptFault>
    ensures read { ReadsNext (R.remaining reader.old) result text.new.items (R.remaining reader.new) }
    ensures faults { IfErr result IsFromReading }
{
    text.clear();
    if reader.read_until(b'\n', text)? == 0 {
        return Ok(false);
    }
    if text.ends_with(b"\n") {
        text.pop();
    }
    Ok(true)
}

// The place of a label among these.
fn place_of(labels: &[usize], label: usize) -> Option<usize>
    ensures { result ≡ place_of labels.now label }
{
    labels.iter().position(|known| *known == label)
}

// A frame comes in, as far as the inbox takes it, and is served.
fn serve<D: Sectors>(hub: &mut Hub<D>, session: u64, frame: &[u8]) -> Result<(), ScriptFault>
    ensures { (h : HubState) → StandsFor hub.old h → ServesOrNot (received h session frame.now) session result hub.new }
{
    let given = hub.room(session).min(frame.len());
    let _ = hub.step(&Event::Bytes(session, &frame[..given]));
    match hub.step(&Event::Serve(session)) {
        Outcome::Memory => Err(ScriptFault::Memory),
        _ => Ok(()),
    }
}

// Writes all of the bytes. Where that fails, the writer may have taken some of the first.
fn write_out<O: Write>(bytes: &[u8], out: &mut O) -> Result<(), ScriptFault>
    ensures { WritesOrFails bytes.now result (O.contents out.old) (O.contents out.new) }
{
    let mut rest = bytes;
    for _ in 0..u64::MAX {
        if rest.is_empty() {
            return Ok(());
        }
        match out.write(rest) {
            Ok(0) => return Err(ScriptFault::File),
            Ok(n) => rest = &rest[n..],
            Err(error) => {
                if error.kind() != ErrorKind::Interrupted {
                    return Err(ScriptFault::File);
                }
            }
        }
    }
    Err(ScriptFault::File)
}
