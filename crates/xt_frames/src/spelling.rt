ghost use Rattle.xt_messages.specs.Limits.{FitsMetaAnswer, FitsRegistryAnswer, FitsReply};
ghost use Rattle.xt_fields.specs.OneSpelling.{IsField};
ghost use Rattle.xt_frames.specs.ReplyFields.{reply_bytes, reply_at};
ghost use Rattle.xt_frames.specs.MetaAnswers.{meta_answer_bytes, meta_answer_at};
ghost use Rattle.xt_frames.specs.RegistryAnswers.{registry_answer_bytes, registry_answer_at};

/// What is read of an answer is a value within limits whose spelling is there, and what is spelled so is read,
/// whatever follows it. So each answer has one spelling, and no spelling begins another.
pub fn answers_have_one_spelling()
    ensures reply { IsField reply_bytes FitsReply reply_at }
    ensures meta_answer { IsField meta_answer_bytes FitsMetaAnswer meta_answer_at }
    ensures registry_answer { IsField registry_answer_bytes FitsRegistryAnswer registry_answer_at }
{}
