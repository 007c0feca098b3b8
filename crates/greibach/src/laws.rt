//! Laws of Greibach forms. The functions do nothing: each contract is a law.

ghost use Rattle.greibach.specs.FormLaws.{FormFiringsAreSteps, FormStepsAreFirings, TailFormsMeanTails};

/// The steps of a call of an equation are the firings of the equation's summands.
pub fn form_steps_are_firings()
    ensures fired { FormStepsAreFirings }
    ensures fire { FormFiringsAreSteps }
{}

/// A form without two calls in a summand means one.
pub fn tail_forms_mean_tails()
    ensures { TailFormsMeanTails }
{}

ghost use Rattle.greibach.specs.FittingForms.{FormsThatFitAreSorted, FormsThatFitStay};

/// A form that fits a pool and a signature is well sorted, and means the same as these grow.
pub fn forms_that_fit_stay()
    ensures sorted { FormsThatFitAreSorted }
    ensures stays { FormsThatFitStay }
{}

ghost use Rattle.greibach.specs.UnfoldedForms.{UnfoldedFormsAreGood};
ghost use Rattle.greibach.specs.MeetingOrder.{CollectedFormsAreGood, CollectedFormsAreGoodFromTheStart, CollectedFormsAreGoodOver, CollectedIsMet, FormsHaveOneShape};

/// In a form that unfolds a text, what the equations stand for and the calls of the form answer each other.
pub fn unfolded_forms_are_good()
    ensures { UnfoldedFormsAreGood }
{}

/// A form whose equations are collected in the order in which they are met unfolds its text, and is strongly bisimilar to what it
/// starts with, also over all data that come later.
pub fn collected_forms_are_good()
    ensures follows { CollectedFormsAreGood }
    ensures starts { CollectedFormsAreGoodFromTheStart }
    ensures over { CollectedFormsAreGoodOver }
    ensures met { CollectedIsMet }
{}

/// Two forms of one text from one start have the same equations in the same order, as many summands in each, and in each summand
/// calls of the same equations.
pub fn forms_have_one_shape()
    ensures { FormsHaveOneShape }
{}

ghost use Rattle.greibach.specs.ComponentForms.{FormsOfComponentsAreGood};

/// The form of a component is strongly bisimilar to it, over all data that come later.
pub fn forms_of_components_are_good()
    ensures { FormsOfComponentsAreGood }
{}

ghost use Rattle.greibach.specs.Scopes.{SequentialBodiesAreSequential, VariablesAreBoundOnce};

/// Whether bodies are sequential and bind their variables once doesn't depend on what stands under the numbers of a specification.
pub fn scopes_are_of_the_text()
    ensures sequential { SequentialBodiesAreSequential }
    ensures bound { VariablesAreBoundOnce }
{}

ghost use Rattle.greibach.specs.PlainComponents.{FormsOfComponentsArePlain};

/// The form of a component is plainly conditioned for what its specification and itself write.
pub fn forms_of_components_are_plain()
    ensures { FormsOfComponentsArePlain }
{}

ghost use Rattle.greibach.specs.LinearShapes.{FormsKeepLinearShapes};

/// The form of a definition in the shape of a linear process is one equation with its summands.
pub fn forms_keep_linear_shapes()
    ensures { FormsKeepLinearShapes }
{}
