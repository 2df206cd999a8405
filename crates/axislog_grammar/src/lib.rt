// No code: how each form is written, and that just these lines are read as forms.
#![tactic(auto)]
