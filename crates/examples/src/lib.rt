// Worked examples of every layer, as one theorem about its definitions.
#![tactic(auto)]

ghost use Rattle.examples.specs.Examples.{Examples};

// The examples hold.
pub fn examples_hold()
    ensures { Examples }
{}
