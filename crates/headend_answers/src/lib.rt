// Which answer of the head-end a request gets, and the authorization keys after it (specs/Answers.antt), and the fields of the answers:
// Authorization Reply and Reject, Authorization Invalid, Key Reply and Key Reject (specs/AnswerFields.antt). By value; each contract equates the
// result with a definition there.

#![tactic(auto)]

pub mod answers;
pub mod fields;
