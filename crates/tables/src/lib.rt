// The table of changed blocks: what was written to each, and which were locked.
#![tactic(auto)]

ghost use Rattle.std.specs.Prelude.{◌≡◌, ◌≤◌, ◌&&◌, ◌++◌, length, drop, is_ok, is_some, IfSome, if◌then◌else◌, nat_le, nat_lt};
ghost use Rattle.tables.specs.Tables.{has_room, unchanged, is_written, is_locked, row, first, with_row, with_locked, Rowed};

use tags::Shape;

/// What was changed of one block.
#[derive(Clone, Copy, Drop)]
struct Row {
    bytes: Option<[u8; 32]>,
    locked: bool,
}

/// A row for each of 64 blocks, of 32 bytes.
#[derive(Drop)]
pub struct Table {
    rows: [Row; 64],
}

/// The table has no row for such a block.
#[derive(Clone, Copy, Debug, PartialEq, Eq)]
pub struct NoRow;

impl Table {
    /// Whether the table has room for all blocks of this shape.
    pub fn has_room(shape: Shape) -> bool
        ensures value { result ≡ has_room shape.count shape.size }
    {
        shape.count <= 64 && shape.size <= 32
    }

    /// A table of no changes.
    pub fn new() -> Table
        ensures value { result ≡ unchanged }
    {
        let row = Row {
            bytes: None,
            locked: false,
        };
        Table { rows: [row; 64] }
    }

    /// Whether block `k` was locked.
    pub fn locked(&self, k: usize) -> bool
        ensures value { result ≡ is_locked self.now k }
    {
        self.rows.get(k).is_some_and(|row| row.locked)
    }

    /// The first `size` bytes of what was written to block `k`, if anything was, and has so many.
    pub fn fetch(&self, k: usize, size: usize) -> Option<&[u8]>
        ensures answer { is_some result ≡ (is_written self.now k && nat_le size 32) }
        ensures value { IfSome result (λ block. block.now ≡ first size (row self.now k)) }
    {
        self.rows.get(k)?.bytes.as_ref()?.get(..size)
    }

    /// Keeps `from` at the front of block `k`, unless there is no such row.
    // Stays: an index here and in `lock`, since no proof knows the elements of an array that `get_mut` has lent.
    pub fn put(&mut self, k: usize, from: &[u8]) -> Result<(), NoRow>
        ensures answer { is_ok result ≡ (nat_lt k 64 && nat_le (length from.now) 32) }
        ensures after { self.new ≡ (if is_ok result then with_row self.old k from.now else self.old) }
        ensures shape { Rowed self.old }
    {
        if k >= 64 || from.len() > 32 {
            return Err(NoRow);
        }
        let row = &mut self.rows[k];
        put_front(row.bytes.get_or_insert([0; 32]), from);
        Ok(())
    }

    /// Locks block `k`, if there is such a row.
    pub fn lock(&mut self, k: usize)
        ensures after { self.new ≡ with_locked self.old k }
        ensures shape { Rowed self.old }
    {
        if k < 64 {
            self.rows[k].locked = true;
        }
    }
}

// Copies `from` to the front of `bytes`.
fn put_front(bytes: &mut [u8; 32], from: &[u8])
    requires { length from.now ≤ 32 }
    ensures after { bytes.new ≡ from.now ++ drop (length from.now) bytes.old }
{
    bytes[..from.len()].copy_from_slice(from);
}
