// The piles of layers that are tried.
use super::exercise::exercise_all;
use drivers::Driver;
use orders::{Bits, Bytes, over, twice};
use std::io;
use windows::Window;

#[derive(Clone, Copy)]
pub(super) enum Pile {
    /// The tag alone.
    Tag,
    Bytes,
    Bits,
    Window { from: usize, most: usize },
    OrdersOverWindow,
    WindowOverOrders,
    WindowBetweenOrders,
    BytesTwice,
    BitsTwice,
    WholeWindow,
    /// Two windows, with an order over each.
    Windows,
}

pub(super) const PILES: [Pile; 15] = [
    Pile::Tag,
    Pile::Bytes,
    Pile::Bits,
    Pile::Window { from: 1, most: 4 },
    Pile::Window { from: 4, most: 9 },
    Pile::Window { from: 6, most: 3 },
    Pile::Window { from: 9, most: 3 },
    Pile::OrdersOverWindow,
    Pile::WindowOverOrders,
    Pile::WindowBetweenOrders,
    Pile::BytesTwice,
    Pile::BitsTwice,
    Pile::WholeWindow,
    Pile::Windows,
    Pile::Window { from: 0, most: 0 },
];

impl Pile {
    /// Asks this pile over `tag` everything.
    // Stays: each arm lays the layers themselves; `layers::lay_on`, of one type for all, would bring them to one window.
    pub(super) fn exercise<D: Driver + Drop>(self, rt: &HostRuntime, tag: D) -> io::Result<()> {
        match self {
            Pile::Tag => exercise_all(rt, tag),
            Pile::Bytes => exercise_all(rt, over(Bytes, tag)),
            Pile::Bits => exercise_all(rt, over(Bits, tag)),
            Pile::Window { from, most } => exercise_all(rt, Window::over(tag, from, most)),
            Pile::OrdersOverWindow => {
                exercise_all(rt, over(Bytes, over(Bits, Window::over(tag, 1, 4))))
            }
            Pile::WindowOverOrders => {
                exercise_all(rt, Window::over(over(Bytes, over(Bits, tag)), 1, 4))
            }
            Pile::WindowBetweenOrders => {
                exercise_all(rt, over(Bits, Window::over(over(Bytes, tag), 2, 3)))
            }
            Pile::BytesTwice => exercise_all(rt, twice(Bytes, tag)),
            Pile::BitsTwice => exercise_all(rt, twice(Bits, tag)),
            Pile::WholeWindow => exercise_all(rt, Window::whole(tag)),
            Pile::Windows => {
                let inner = Window::over(over(Bits, tag), 1, 4);
                exercise_all(rt, Window::over(over(Bytes, inner), 1, 2))
            }
        }
    }
}
