//! What every step keeps of a device's tree, proved over the model alone, for all crates that use it.
//!
//! `q_model` says what an arrival, a poll and a command make of a tree. `specs/Kept.antt` says what each of them keeps: that
//! nothing is made or lost at any node (by the weights of `specs/Weights.antt`), that no node has marked more than it sent, dropped or
//! holds, and that each node is lawful (`q_model`, `specs/Lawful.antt`). In `proofs/` the files `Puts`, `Asks` and `Edits` are the three
//! kinds of steps. The law over all lists of events is the contract of `q_device::laws::conserved`.
//!
//! Two groups of lemmas are for the code of the tree. `SizedPlans`, `SizedChanges` and `MadeSizes` say what a command plans
//! if the depth and the number of nodes are found from the tree before the edit (`specs/Sizes.antt`), so that the edited tree need not be
//! built to be checked. `SecondPeeks` shows that a second peek at the same time changes nothing, and `TakeAfterPeek` that a take
//! after a peek leaves what a take alone leaves.
#![tactic(auto)]
