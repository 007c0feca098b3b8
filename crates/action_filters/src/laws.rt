//! The laws of filters. The functions do nothing: each contract is a law.

ghost use Rattle.action_filters.specs.AllowLaws.{AllowKeepsExactly};

/// `allow` keeps a summand exactly where its label has no names, or those of one of the sets, each as often.
pub fn allow_keeps_exactly()
    ensures { AllowKeepsExactly }
{}
