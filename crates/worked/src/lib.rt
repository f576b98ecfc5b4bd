// The worked cases of readers and writer: claims only.
#![tactic(auto)]
