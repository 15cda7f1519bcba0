// The laws of cutting, each as the contract of a function.
ghost use Rattle.framing.specs.Lines.{LineEnds, LineGoesOn, OneCut, SomeCut, UnbrokenTells};

#[tactic(auto, using(crate::proofs::Cuts::unbroken_tells))]
pub fn unbroken_tells_stands()
    ensures { UnbrokenTells }
{}

pub fn one_cut_stands()
    ensures { OneCut }
{}

#[tactic(auto, using(crate::proofs::Cuts::some_cut))]
pub fn some_cut_stands()
    ensures { SomeCut }
{}

#[tactic(auto, using(crate::proofs::Cuts::line_ends))]
pub fn line_ends_stands()
    ensures { LineEnds }
{}

#[tactic(auto, using(crate::proofs::Cuts::line_goes_on))]
pub fn line_goes_on_stands()
    ensures { LineGoesOn }
{}
