// The conflict test of two lent routes as an entry (document 02, slips 7 and 9): the first conflict with its beat and its kind, if there is
// one.
#![tactic(auto)]

ghost use Rattle.std.specs.Prelude.{◌≡◌};
ghost use Rattle.conflict.specs.Entry.{compared_outcome, conflict_outcome};

use floor::{Refusal, check_length};
use records::{CELLS, load};
use route::{Conflict, first_conflict};

// The first conflict of two lent routes through the horizon, of which 64 cells each are read; a horizon above 63 counts as 63.
pub fn conflict(r: &[u16], q: &[u16], horizon: u16) -> Result<Option<Conflict>, Refusal>
    ensures { compared_outcome result ≡ conflict_outcome r.now q.now horizon }
{
    check_length(CELLS, r.len())?;
    check_length(CELLS, q.len())?;
    Ok(first_conflict(load(r, 0), load(q, 0), horizon))
}
