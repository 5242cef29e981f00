// The tag, the command code and the response code of a header. The two codes share bytes 6 to 9 of a frame; a struct
// each keeps one from being taken for the other, and each makes its own refusal, in the area that is named.
ghost use Rattle.std.specs.Prelude.{◌≡◌, [], ◌∷◌};
ghost use Rattle.base.specs.Error.{numbered};
ghost use Rattle.base.specs.Said.{in_area};

use crate::error::{Area, TpmError};

#[repr(C)]
#[derive(Clone, Copy)]
pub struct TpmSt(pub u16);

#[repr(C)]
#[derive(Clone, Copy)]
pub struct TpmCc(pub u32);

#[repr(C)]
#[derive(Clone, Copy)]
pub struct TpmRc(pub u32);

// Three of a kind: each makes a variant of its own, and a trait over them would be longer than they are.
impl TpmSt {
    // The refusal of a tag, InvalidTag.
    pub fn refused(self, area: Area, offset: usize) -> TpmError
        ensures { numbered result ≡ in_area area (3 ∷ offset ∷ self.0 ∷ []) }
    {
        TpmError::InvalidTag {
            area,
            offset,
            value: self.0 as u64,
        }
    }
}

impl TpmCc {
    // The refusal of a command code, InvalidCc.
    pub fn refused(self, area: Area, offset: usize) -> TpmError
        ensures { numbered result ≡ in_area area (4 ∷ offset ∷ self.0 ∷ []) }
    {
        TpmError::InvalidCc {
            area,
            offset,
            value: self.0 as u64,
        }
    }
}

impl TpmRc {
    // The refusal of a response code, InvalidRc.
    pub fn refused(self, area: Area, offset: usize) -> TpmError
        ensures { numbered result ≡ in_area area (5 ∷ offset ∷ self.0 ∷ []) }
    {
        TpmError::InvalidRc {
            area,
            offset,
            value: self.0 as u64,
        }
    }
}
