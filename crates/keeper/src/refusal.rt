// What the keeper refuses: a frame, by the frame's own refusal, and what document 02 (W8) adds to it, without fields.
ghost use Rattle.std.specs.Prelude.{◌≡◌};
ghost use Rattle.keeper.specs.declared.refusal.Refusal.TheVariants.{Frame};

use base::error::TpmError;

#[derive(Clone, Copy)]
pub enum Refusal {
    Frame(TpmError),
    HandleRepeated,
    CountsDiffer,
    AlreadyOpen,
    AllOpen,
    NotOpen,
}

impl From<TpmError> for Refusal {
    ghost from_gives = { λ e r. r ≡ Frame e };

    fn from(e: TpmError) -> Refusal {
        Refusal::Frame(e)
    }
}
