//! What the lines of a run's trace have of its journal: lemmas over the definition of *audited trace*.
#![tactic(auto)]
