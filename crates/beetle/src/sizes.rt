//! How many bytes the calls take and write.
ghost use Rattle.std.specs.Prelude.{◌≡◌, ◌≤◌, OnOk};
ghost use Rattle.beetle.specs.Outcomes.{sizes_answer};

use refusal::Refusal;

/// The longest text, its tag left out, that a call takes.
pub const LONGEST_TEXT: usize = 65_536;

/// How many bytes a tag has.
pub const TAG_BYTES: usize = 16;

/// How many bytes a digest has.
pub const DIGEST_BYTES: usize = 32;

/// Refuses texts of which the longest is over 65,536 bytes, then an output with room for fewer bytes than are wanted.
pub(crate) fn check_sizes(longest: usize, wanted: usize, room: usize) -> Result<(), Refusal>
    ensures answer { result ≡ sizes_answer longest wanted room }
    ensures short { OnOk result (longest ≤ LONGEST_TEXT) }
    ensures fits { OnOk result (wanted ≤ room) }
{
    if longest > LONGEST_TEXT {
        return Err(Refusal::TextTooLong);
    }
    if room < wanted {
        return Err(Refusal::OutputTooShort);
    }
    Ok(())
}
