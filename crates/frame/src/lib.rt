// Laws about views that share files: what a store keeps, what a sound partition has, and repair begun again. No code.
#![tactic(auto)]
