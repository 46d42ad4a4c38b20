// Laws alone: the chunks of a sound file in file order, as a loop over places meets them.
#![tactic(auto)]
