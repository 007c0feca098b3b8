//! When labels agree. The functions do nothing: each contract is a law.

ghost use Rattle.process_terms.specs.AgreementLaws.{AgreementInOrderIsAgreement, AgreementInOrderIsReflexive, AgreementInOrderIsSymmetric, AgreementInOrderIsTransitive, AgreementIsReflexive, AgreementIsSymmetric, AgreementIsTransitive, CommunicationRespectsAgreement, EqualListsAreEqualPlaces, JoinedEitherWay, JoinedLabelsAgree, JoinedLabelsAgreeInOrder, OperatorsRespectAgreement};

/// Lists of terms are provably equal place by place exactly where the terms behind a symbol are.
pub fn equal_lists_are_equal_places()
    ensures { EqualListsAreEqualPlaces }
{}

/// Agreement in order is an equivalence, and goes through joining.
pub fn agreement_in_order()
    ensures reflexive { AgreementInOrderIsReflexive }
    ensures symmetric { AgreementInOrderIsSymmetric }
    ensures transitive { AgreementInOrderIsTransitive }
    ensures joined { JoinedLabelsAgreeInOrder }
{}

/// Agreement of labels as multisets is an equivalence, and goes through joining, either way round.
pub fn agreement_as_multisets()
    ensures of_ordered { AgreementInOrderIsAgreement }
    ensures reflexive { AgreementIsReflexive }
    ensures symmetric { AgreementIsSymmetric }
    ensures transitive { AgreementIsTransitive }
    ensures joined { JoinedLabelsAgree }
    ensures either_way { JoinedEitherWay }
{}

/// Labels that agree in order communicate to labels that agree in order.
pub fn communication_respects_agreement()
    ensures { CommunicationRespectsAgreement }
{}

/// Labels that agree in order pass an operator around a process as labels that agree in order.
pub fn operators_respect_agreement()
    ensures { OperatorsRespectAgreement }
{}
