// What a rehearsal tag is made of.
ghost use Rattle.std.specs.Prelude.{◌≡◌, true};
ghost use Rattle.tags.specs.Dumps.{dump_means};
ghost use Rattle.tables.specs.Tables.{has_room};

use tables::Table;
use tags::Dump;

/// The tag of a dump, changed in a table alone: the type lends the dump's bytes only to look at.
#[derive(Drop)]
pub struct Rehearsal<'a> {
    pub(super) dump: Dump<'a>,
    pub(super) system: u8,
    pub(super) table: Table,
    ghost room: { has_room (dump_means dump).count (dump_means dump).size ≡ true },
}
