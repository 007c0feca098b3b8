//! Data that grow keep what was derived.

ghost use Rattle.data_theory.specs.EqualityLaws.{GrowthKeepsDerivations, GrowthKeepsSorts};
ghost use Rattle.data_theory.specs.StructGrowth.{WithAStructSortItIsGrown};

/// Where sorts, functions and equations come behind the old ones, what was provable stays provable.
pub fn growth_keeps_derivations()
    ensures { GrowthKeepsDerivations }
{}

/// A term keeps its sort then.
pub fn growth_keeps_sorts()
    ensures { GrowthKeepsSorts }
{}

/// A signature with a `struct` sort, its functions and its constructors has in front what it had.
pub fn struct_sorts_come_behind()
    ensures { WithAStructSortItIsGrown }
{}
