//! A message that owns all its memory.
ghost use Rattle.std.specs.Prelude.{◌≡◌, ◌≤◌, length, Err, IsOk, IsOkUnless, IfOk};
ghost use Rattle.examples.specs.declared.message.MessageError.TheVariants.{Values};
ghost use Rattle.ix_string.specs.Text.{IsText};

use ix_cells::StaticVec;
use ix_string::StaticString;

/// A topic of at most 32 bytes and at most 8 values.
#[derive(Clone, PartialEq, Eq, Debug, Drop)]
pub struct Message {
    pub topic: StaticString<32>,
    pub values: StaticVec<u64, 8>,
}

/// The error of making a message.
#[derive(Clone, Copy, PartialEq, Eq, Debug)]
pub enum MessageError {
    Topic,
    Values,
}

impl Message {
    /// Returns the message with this topic and these values.
    pub fn new(topic: &str, values: &[u64]) -> Result<Message, MessageError>
        ensures topic { IfOk result (λ message. message.topic ≡ topic.now) }
        ensures values { IfOk result (λ message. message.values ≡ values.now) }
        ensures topic_fits { IsText topic.now → length topic.now ≤ 32 → IsOkUnless result Values }
        ensures values_refused { result ≡ Err Values → IsText topic.now × (length topic.now ≤ 32) }
        ensures both_fit { IsText topic.now → length topic.now ≤ 32 → length values.now ≤ 8
            → IsOk result }
    {
        let Ok(topic) = StaticString::try_from(topic) else {
            return Err(MessageError::Topic);
        };
        let Ok(values) = StaticVec::try_from(values) else {
            return Err(MessageError::Values);
        };
        Ok(Message { topic, values })
    }
}
