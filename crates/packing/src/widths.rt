// How many bits a group has.
ghost use Rattle.std.specs.Prelude.{◌≤◌};

/// The bits of a group: 4 to 8.
#[derive(Clone, Copy)]
pub(crate) struct Width {
    pub(crate) bits: u32,
    ghost fits: { (4 ≤ bits) × (bits ≤ 8) },
}
