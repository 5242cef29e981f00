// The areas of a frame: the handles, the sized bytes behind them and the rest, computed once for commands and responses.
ghost use Rattle.std.specs.Prelude.{◌≡◌};
ghost use Rattle.base.specs.Answer.{said};
ghost use Rattle.frame.specs.Areas.{handle_area, sized_area};

use crate::header::HEADER_SIZE;
use base::error::{Area, TpmError};
use base::field::{left, read_u32};

// Where the handles end, where the sized bytes start and where they end; the rest goes on to the frame's end.
#[derive(Clone, Copy)]
pub(crate) struct Areas {
    pub(crate) handles: usize,
    pub(crate) from: usize,
    pub(crate) to: usize,
}

// Where so many handles end.
pub(crate) fn handle_area(handles: u8, s: &[u8]) -> Result<usize, TpmError>
    ensures { said result ≡ handle_area handles s.now }
{
    let needed = 4 * (handles as usize);
    let left = left(s.len(), HEADER_SIZE);
    if left < needed {
        return Err(TpmError::UnexpectedEnd {
            area: Area::Handles,
            offset: HEADER_SIZE,
            needed,
            available: left,
        });
    }
    Ok(HEADER_SIZE + needed)
}

// The sized bytes behind the handles: entries or parameters, as their area says. Without sessions there is no size, and they end where the caller
// says: a flag beside that end, as the definition has both, since an `Option` of it would be made by each caller by the same test.
pub(crate) fn sized_area(
    area: Area,
    sessions: bool,
    end: usize,
    s: &[u8],
    handles: usize,
) -> Result<Areas, TpmError>
    ensures { said result ≡ sized_area area sessions end s.now handles }
{
    if sessions {
        let size = read_u32(area, s, handles)? as usize;
        let from = handles + 4;
        let left = s.len() - from;
        if left < size {
            return Err(TpmError::UnexpectedEnd {
                area,
                offset: from,
                needed: size,
                available: left,
            });
        }
        Ok(Areas {
            handles,
            from,
            to: from + size,
        })
    } else {
        Ok(Areas {
            handles,
            from: handles,
            to: end,
        })
    }
}
