// Refusal 2: the limits of line 1's six values.
ghost use Rattle.std.specs.Prelude.{◌≡◌};
ghost use Rattle.floor.specs.Answers.{verdict_of};
ghost use Rattle.laws.specs.Verdict.{demand};
ghost use Rattle.floor.specs.Checks.{within, limits_of};

use crate::{Floor, Reason, Refusal};

// Tests one value of line 1, the field's number being its place.
fn limit(value: u16, low: u16, high: u16, field: usize) -> Result<(), Refusal>
    ensures { verdict_of result ≡ demand (within low high value) 2 field }
{
    if value < low {
        return Err(Refusal {
            reason: Reason::Limits,
            place: field,
        });
    }
    if high < value {
        return Err(Refusal {
            reason: Reason::Limits,
            place: field,
        });
    }
    Ok(())
}

// Tests each of the six values against its limits, in the order of line 1.
pub fn limits(f: Floor) -> Result<(), Refusal>
    ensures { verdict_of result ≡ limits_of f }
{
    limit(f.width, 1, Floor::MAX_WIDTH, 1)?;
    limit(f.height, 1, Floor::MAX_HEIGHT, 2)?;
    limit(f.horizon, 1, Floor::MAX_HORIZON, 3)?;
    limit(f.depth, 1, Floor::MAX_DEPTH, 4)?;
    limit(f.carriers, 1, Floor::MAX_CARRIERS, 5)?;
    limit(f.walls, 0, Floor::MAX_WALLS, 6)
}
