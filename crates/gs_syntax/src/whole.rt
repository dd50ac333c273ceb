//! The value of an integer literal.
ghost use Rattle.std.specs.Prelude.{◌≡◌, IfOk};

use gs_base::Mem;
use sqlite_items::Boxed;
use std::alloc::Global;
use std::marker::Model;

/// The value, by its size.
#[derive(Debug, Drop)]
enum Size {
    /// Below 2^64.
    Small(u64),
    Large(Boxed<i128>),
    /// Past 2^127 - 1.
    Wide,
}

/// The value of an integer literal, where that is at most 2^127 - 1. One below 2^64 takes no memory but the 16 bytes of the
/// value itself.
#[derive(Debug, Drop)]
pub struct Whole {
    size: Size,
}

impl Model for Whole {
    ghost use Rattle.std.specs.Prelude.{Option, ℤ};

    ghost Value = { Option ℤ };

    ghost use Rattle.gs_syntax.specs.Held.{integer_of};

    ghost view = { λ w. integer_of w.size };
}

impl Whole {
    /// The value, where there is one.
    pub fn new(alloc: Global, value: Option<i128>) -> Mem<Whole>
        ensures { IfOk result (λ w. w ≡ value) }
    {
        let Some(number) = value else {
            return Ok(Whole { size: Size::Wide });
        };
        if let Ok(small) = u64::try_from(number) {
            return Ok(Whole {
                size: Size::Small(small),
            });
        }
        Ok(Whole {
            size: Size::Large(Boxed::new(alloc, number)?),
        })
    }

    /// The value back, where there is one.
    pub fn get(&self) -> Option<i128>
        ensures { result ≡ self.now }
    {
        match &self.size {
            Size::Small(small) => Some(i128::from(*small)),
            Size::Large(number) => Some(*number.get()),
            Size::Wide => None,
        }
    }
}
