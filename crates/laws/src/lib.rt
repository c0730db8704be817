// Laws that the proofs of every crate cite, over any number, list, table or width. No code: see specs/.

#![tactic(auto)]
