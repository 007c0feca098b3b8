//! Sorts without a table: how many times `List` stands around which sort.

use data_theory::NoMemory;

/// A sort that is no list.
#[derive(Clone, Copy, Debug, PartialEq, Eq)]
pub enum Base {
    Bool,
    Pos,
    Nat,
    Int,
    /// A declared sort.
    Named(usize),
}

/// The lists over the lists .. over a sort that is no list.
#[derive(Clone, Copy, Debug, PartialEq, Eq)]
pub struct FlatSort {
    pub depth: usize,
    pub base: Base,
}

/// The sort of a place in a signature over any sort S.
#[derive(Clone, Copy, Debug)]
pub enum SortPlace {
    /// S
    Itself,
    /// `List(S)`
    Elements,
    /// A sort that doesn't hang on S.
    Settled(FlatSort),
}

impl Base {
    ghost use Rattle.std.specs.Prelude.{◌≡◌, is_some};
    ghost use Rattle.data_typing.specs.FlatSorts.{base_sort};
    ghost use Rattle.data_typing.specs.Typings.{upcast_to};

    /// Whether the sort embeds in another one.
    pub fn embeds(self, to: Base) -> bool
        ensures { result ≡ is_some (upcast_to (base_sort self) (base_sort to)) }
    {
        match self {
            Base::Pos => matches!(to, Base::Nat | Base::Int),
            Base::Nat => matches!(to, Base::Int),
            _ => false,
        }
    }
}

impl FlatSort {
    ghost use Rattle.std.specs.Prelude.{◌≡◌, IfOk, option_map};
    ghost use Rattle.data_typing.specs.FlatSorts.{flat_sort, place_of};
    ghost use Rattle.data_typing.specs.Typings as typings;

    /// Whether it is this other sort.
    pub fn is(self, other: FlatSort) -> bool
        ensures { result ≡ typings.sort_eq (flat_sort self) (flat_sort other) }
    {
        if self == other { true } else { false }
    }

    /// Whether the sort is another one or embeds in it.
    pub fn fits(self, to: FlatSort) -> bool
        ensures { result ≡ typings.fits (flat_sort self) (flat_sort to) }
    {
        if self == to {
            return true;
        }
        if self.depth > 0 || to.depth > 0 {
            return false;
        }
        self.base.embeds(to.base)
    }

    /// Of two sorts the one in which the other fits.
    pub fn wider(self, other: FlatSort) -> Option<FlatSort>
        ensures { option_map flat_sort result ≡ typings.wider (flat_sort self) (flat_sort other) }
    {
        if self.fits(other) {
            Some(other)
        } else if other.fits(self) {
            Some(self)
        } else {
            None
        }
    }

    /// The sort of a place, where S is this one.
    pub fn over(self, place: SortPlace) -> Result<FlatSort, NoMemory>
        ensures { IfOk result (λ s. flat_sort s ≡ typings.over (flat_sort self) (place_of place)) }
    {
        match place {
            SortPlace::Itself => Ok(self),
            SortPlace::Elements => match self.depth.checked_add(1) {
                Some(depth) => Ok(FlatSort {
                    depth,
                    base: self.base,
                }),
                None => Err(NoMemory),
            },
            SortPlace::Settled(sort) => Ok(sort),
        }
    }

    /// The S with which a place has this sort.
    pub fn read_off(self, place: SortPlace) -> Option<FlatSort>
        ensures { option_map flat_sort result ≡ typings.read_off (flat_sort self) (place_of place) }
    {
        match place {
            SortPlace::Itself => Some(self),
            SortPlace::Elements => {
                if self.depth == 0 {
                    None
                } else {
                    Some(FlatSort {
                        depth: self.depth - 1,
                        base: self.base,
                    })
                }
            }
            SortPlace::Settled(_) => None,
        }
    }
}
