//! Laws on the sorts of terms.

ghost use Rattle.term_pool.specs.TermSorts.{HeadsHaveSorts, PuttingInKeepsSorts};

/// Over each signature in which the arguments fit the head, the term that `intern` gives has the head's sort, and nothing
/// that merges stands in it.
pub fn heads_have_sorts()
    ensures { HeadsHaveSorts }
{}

/// Over each signature in which each listed term has its variable's sort, putting in keeps the sort of a term.
pub fn putting_in_keeps_sorts()
    ensures { PuttingInKeepsSorts }
{}
