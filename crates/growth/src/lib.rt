// Laws about the write of an absent block: what it takes, what it stores and what the file is before, from its deciding store on, and afterwards. No code.
#![tactic(auto)]
