// Whether a call may begin: the rows that leave working memory untouched.
ghost use Rattle.std.specs.Prelude.{◌≡◌, [], ◌∷◌};
ghost use Rattle.calls.specs.Rows.{Answers, seen, shape_row, room_rows, system_row, entry_row, start_rows};

use drivers::Driver;
use states::{CallFault, Lent, Noted};
use tags::{Shape, known_format};

// Whether the shape is within the limits.
pub(crate) fn check_shape(shape: Shape) -> Result<(), CallFault>
    ensures answer { Answers (shape_row shape.count shape.size ∷ []) (λ _. Unit {0}) result }
{
    if !shape.in_limits() {
        return Err(CallFault::Shape);
    }
    Ok(())
}

// Whether the system byte is one of a tag without directory.
pub(crate) fn check_system(system: u8) -> Result<(), CallFault>
    ensures answer { Answers (system_row system ∷ []) (λ _. Unit {0}) result }
{
    if !known_format(system) {
        return Err(CallFault::System(system));
    }
    Ok(())
}

// How many bytes of image and scratch, and records of the table, are lent.
#[derive(Clone, Copy)]
pub(crate) struct Rooms {
    pub(crate) image: usize,
    pub(crate) table: usize,
    pub(crate) scratch: usize,
}

impl Rooms {
    // Whether the shape is within the limits, and this working memory suffices for it.
    fn check(self, shape: Shape) -> Result<(), CallFault>
        ensures answer { Answers (room_rows shape.count shape.size self) (λ _. Unit {0}) result }
    {
        check_shape(shape)?;
        if self.image < shape.count * shape.size {
            return Err(CallFault::Short(Lent::Image));
        }
        if self.table < 341 {
            return Err(CallFault::Short(Lent::Table));
        }
        if self.scratch < 3072 {
            return Err(CallFault::Short(Lent::Scratch));
        }
        Ok(())
    }
}

// Whether a call without a state takes the tag, or it is as the state noted.
fn check_entry(here: Noted, noted: Option<Noted>) -> Result<(), CallFault>
    ensures answer { Answers (entry_row here noted ∷ []) (λ _. Unit {0}) result }
{
    match noted {
        None => check_system(here.system),
        Some(before) if here != before => Err(CallFault::Noted),
        Some(_) => Ok(()),
    }
}

// The rows that leave working memory untouched.
pub(crate) fn admit<D: Driver>(
    d: &mut D,
    noted: Option<Noted>,
    lent: Rooms,
) -> Result<Noted, CallFault>
    ensures answer { Answers (start_rows (D.Driver.tag d.old) noted lent) (λ s. s ≡ seen (D.Driver.tag d.old)) result }
    ensures same { D.Driver.tag d.new ≡ D.Driver.tag d.old }
{
    let shape = d.shape();
    lent.check(shape)?;
    let system = d.system()?;
    let here = Noted { shape, system };
    check_entry(here, noted)?;
    Ok(here)
}
