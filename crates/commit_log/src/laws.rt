//! The law that an image is the log of one list of write sets at most: the contract of a function that does nothing.
ghost use Rattle.std.specs.Prelude.{◌≡◌, ℕ, List};
ghost use Rattle.commit_log.specs.declared.formats.LogFormat.{LogFormat};
ghost use Rattle.commit_log.specs.LogImage.{IsLogImage, IsDamaged, HasHead, IsOfOneList, LogIsNoOther, DamagedIsLog};

/// An image is at most one of these: the log of one list of write sets, damaged behind one list, or no log. It begins with the head of one
/// format at most.
pub fn law_image_has_one_list()
    ensures one { IsOfOneList IsLogImage }
    ensures formats { (f g : LogFormat) (image : List (List ℕ)) → HasHead f image → HasHead g image → f ≡ g }
    ensures damaged { IsOfOneList IsDamaged }
    ensures apart { LogIsNoOther }
    ensures no_damage { DamagedIsLog }
{}
