// Formatting a tag.
ghost use Rattle.std.specs.Prelude.{◌≡◌, ℕ, ◌<◌, ◌≤◌, false, MatchResult};
ghost use Rattle.drivers.specs.Questions.{shut};
ghost use Rattle.calls.specs.Rows.{first, Answers};
ghost use Rattle.calls.specs.Working.{unless};
ghost use Rattle.calls.specs.Openings.{Opens, lowest_locked, format_rows, erased, formatted};

use super::admission::{check_shape, check_system};
use drivers::Driver;
use states::{CallFault, Noted, OpenState};
use tags::Shape;

// The lowest locked block.
fn first_locked<D: Driver>(d: &mut D) -> Result<Option<usize>, CallFault>
    ensures cases { MatchResult result (λ o. o ≡ lowest_locked (D.Driver.tag d.old)) (λ _. ⊥) }
    ensures same { D.Driver.tag d.new ≡ D.Driver.tag d.old }
{
    for k in 0..d.shape().count {
        if d.locked(k)? {
            return Ok(Some(k));
        }
    }
    Ok(None)
}

// Writes zeros to each block of a tag that has no locked one.
fn erase<D: Driver>(d: &mut D) -> Result<(), CallFault>
    requires small { (D.Driver.tag d.old).size ≤ 32 }
    requires unlocked { (k : ℕ) → k < (D.Driver.tag d.old).count → shut (D.Driver.tag d.old) k ≡ false }
    ensures cases { MatchResult result (λ _. D.Driver.tag d.new ≡ erased (D.Driver.tag d.old)) (λ _. ⊥) }
{
    let zeros = [0; 32];
    let Shape { count, size } = d.shape();
    for k in 0..count {
        d.write(k, &zeros[..size])?;
    }
    Ok(())
}

/// Sets the system byte and writes zeros to every block of a tag that has no locked one; gives an open state and all
/// bytes as free. A declined format leaves the tag as it was.
pub fn format<D: Driver>(d: &mut D, system: u8) -> Result<(OpenState, usize), CallFault>
    ensures answer { Answers (format_rows (D.Driver.tag d.old) system) (Opens (formatted (D.Driver.tag d.old) system)) result }
    ensures after { D.Driver.tag d.new ≡ unless (first (format_rows (D.Driver.tag d.old) system)) (D.Driver.tag d.old) (formatted (D.Driver.tag d.old) system) }
{
    let shape = d.shape();
    check_shape(shape)?;
    check_system(system)?;
    if let Some(block) = first_locked(d)? {
        return Err(CallFault::Locked(block));
    }
    d.set_system(system)?;
    erase(d)?;
    let state = OpenState::of(Noted { shape, system });
    Ok((state, shape.count * shape.size))
}
