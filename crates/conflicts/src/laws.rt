// Laws of counting, each as the contract of a function, so that its proof is owed.
ghost use Rattle.conflicts.specs.Graphs.{Handshake};

#[tactic(auto, using(crate::proofs::Edges::handshake))]
pub fn handshake_stands()
    ensures { Handshake }
{}
