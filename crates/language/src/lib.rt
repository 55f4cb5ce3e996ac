// Document 01, the rule language, as definitions: read specs/ beside it, section by section. There is no code here.
#![tactic(auto)]
