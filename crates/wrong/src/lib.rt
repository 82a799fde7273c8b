// Wrong machines: the rulebook's with one change each, and short lists of events on which they show themselves. There is no code here.
#![tactic(auto)]
