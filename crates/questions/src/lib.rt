// What every call rests on: settings and their limits (specs/Settings.antt), refusals with document 01's numbers (specs/Refusal.antt), how a
// call meets its questions (specs/Questions.antt), and SAIDs that differ (specs/Apart.antt). Each contract equates the result with a definition
// there; `limits` has the limits as constants. The questions themselves stand with what they ask: 1 in `modem_limits`, `headend_limits` and
// `message_writer`; 2 and 3 with each call; 4 and 5 in `headend_steps`; 6 to 9 in `message_reader`; 10 to 12 in `modem_receive` and `headend_steps`;
// 13 and 14 in `modem_frames` and `headend_frames`.

#![tactic(auto)]

pub mod apart;
pub mod limits;
pub mod refusal;
pub mod settings;
