// The laws of the line format, each as the contract of a function, so that its proof is owed.
ghost use Rattle.lines.specs.Text.{ReadsBack, OnlyText, OneLine};

#[tactic(auto, using(crate::proofs::Texts::reads_back))]
pub fn written_changes_read_back()
    ensures { ReadsBack }
{}

pub fn lines_are_written_changes()
    ensures { OnlyText }
{}

pub fn no_two_lines_mean_the_same()
    ensures { OneLine }
{}
