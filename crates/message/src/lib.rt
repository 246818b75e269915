// Messages: what frames mean in a profile. `content` is what data say in a row, and `read` a typed message.
// `message_content`, `message_read` and `message_write` have the code.
#![tactic(auto)]

pub mod content;
pub mod read;
