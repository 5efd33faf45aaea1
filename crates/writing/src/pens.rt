// Bytes put into a lent slice, one run after another.
ghost use Rattle.std.specs.Prelude.{◌≡◌, ◌+◌, ◌<◌, ◌≤◌, [], ◌∷◌, length, replicate};
ghost use Rattle.codes.specs.Table.{packed_code, first_code};
ghost use Rattle.codes.specs.Numbers.{kind_number};
ghost use Rattle.packing.specs.Packing.{Sized};
ghost use Rattle.sets.specs.Sets.{name_size, long};
ghost use Rattle.sets.specs.Writing.{name_bytes, length_bytes};
ghost use Rattle.sets.specs.Laws.{Fitting};
ghost use Rattle.scan.specs.Views.{name_of};
ghost use Rattle.writing.specs.Pens.{HasRoom, Wrote};

use codes::Kind;
use packing::pack;
use scan::Identifier;

// A lent slice, and where what comes next is put.
#[derive(Drop)]
pub(crate) struct Pen<'a> {
    pub(crate) out: &'a mut [u8],
    pub(crate) at: usize,
}

impl Pen<'_> {
    pub(crate) fn byte(&mut self, byte: u8)
        requires { HasRoom self.old 1 }
        ensures { Wrote (byte ∷ []) self.old self.new }
    {
        self.out[self.at] = byte;
        self.at += 1;
    }

    fn run(&mut self, run: &[u8])
        requires { HasRoom self.old (length run.now) }
        ensures { Wrote run.now self.old self.new }
    {
        let end = self.at + run.len();
        self.out[self.at..end].copy_from_slice(run);
        self.at = end;
    }

    pub(crate) fn zeros(&mut self, count: usize)
        requires { HasRoom self.old count }
        ensures { Wrote (replicate count 0) self.old self.new }
    {
        let end = self.at + count;
        self.out[self.at..end].fill(0);
        self.at = end;
    }

    // The object packed by the first permitted code of its kind, in the n bytes that it takes.
    pub(crate) fn object(&mut self, kind: Kind, object: &[u8], n: usize)
        requires sized { Sized object.now }
        requires planned { n ≡ length (packed_code (first_code (kind_number kind) object.now) object.now) }
        requires room { HasRoom self.old n }
        ensures { Wrote (packed_code (first_code (kind_number kind) object.now) object.now) self.old self.new }
    {
        let end = self.at + n;
        pack(kind, object, &mut self.out[self.at..end]).unwrap();
        self.at = end;
    }

    pub(crate) fn name(&mut self, name: Identifier)
        requires fits { Fitting (name_of name) }
        requires room { HasRoom self.old (name_size (name_of name)) }
        ensures { Wrote (name_bytes (name_of name.entry)) self.old self.new }
    {
        match name {
            Identifier::Bare(_) => (),
            Identifier::Byte(n) => self.byte(n - 15),
            Identifier::Led(content) => {
                self.byte(0x7f + content.len() as u8);
                self.run(content);
            }
        }
    }

    pub(crate) fn length(&mut self, n: usize)
        requires few { n ≤ 16383 }
        requires room { HasRoom self.old (long n) }
        ensures { Wrote (length_bytes n) self.old self.new }
    {
        if n < 0x80 {
            self.byte(n as u8);
        } else {
            self.byte(0x80 + (n / 0x80) as u8);
            self.byte((n % 0x80) as u8);
        }
    }
}
