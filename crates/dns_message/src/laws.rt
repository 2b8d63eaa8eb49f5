//! Laws of messages. Each function is its clauses, and does nothing.

ghost use Rattle.std.specs.Prelude.{◌≡◌, ℕ, ◌+◌, ◌<◌, ◌≤◌, true, List, length, take, Ok, Err};
ghost use Rattle.dns_record.specs.Number.{AreOctets};
ghost use Rattle.dns_message.specs.declared.fault.MessageFault.{MessageFault};
ghost use Rattle.dns_message.specs.declared.message.Message.{Message};
ghost use Rattle.dns_message.specs.declared.limit.TheConstants.{LEAST_LIMIT};
ghost use Rattle.dns_message.specs.Compressed.{compressed_message, compressed_within};
ghost use Rattle.dns_message.specs.Faults.{MessageShows};
ghost use Rattle.dns_message.specs.Grammar.{MessageAt};
ghost use Rattle.dns_message.specs.Reading.{message_of};
ghost use Rattle.dns_message.specs.Request.{speaks_in, turned_away};
ghost use Rattle.dns_message.specs.Spelling.{header_octets, message_octets, opt_count, question_count, IsMessage};

/// Exactly the messages that the bytes are by the rules of the grammar are read, and exactly the faults are given
/// that the bytes show by them.
pub fn a_message_is_read_by_its_grammar()
    ensures stands { (bytes : List ℕ) (m : Message) → AreOctets bytes → message_of bytes ≡ Ok m →
        MessageAt bytes m }
    ensures only { (bytes : List ℕ) (m : Message) → MessageAt bytes m → message_of bytes ≡ Ok m }
    ensures shows { (bytes : List ℕ) (fault : MessageFault) → AreOctets bytes →
        message_of bytes ≡ Err fault → MessageShows bytes fault }
    ensures only_fault { (bytes : List ℕ) (fault : MessageFault) → AreOctets bytes →
        MessageShows bytes fault → message_of bytes ≡ Err fault }
{}

/// A message whose names stand in full is read as the message, also where the bits Z of the header are set; and what is
/// read is such a message.
pub fn a_message_is_read_as_it_is_spelled()
    ensures written { (m : Message) (z : ℕ) → IsMessage m → z < 8 →
        message_of (message_octets z m) ≡ Ok m }
    ensures is_message { (bytes : List ℕ) (m : Message) → AreOctets bytes →
        message_of bytes ≡ Ok m → IsMessage m }
{}

/// A message whose names are compressed is read as the message, also where the bits Z of the header are set.
pub fn a_compressed_message_is_read()
    ensures { (m : Message) (z : ℕ) → IsMessage m → z < 8 → message_of (compressed_message z m) ≡ Ok m }
{}

/// A message whose names are compressed begins with its header.
pub fn a_compressed_message_begins_with_its_header()
    ensures { (m : Message) (z : ℕ) → take 12 (compressed_message z m)
        ≡ header_octets z m.header (question_count m.question) (length m.answer)
        (length m.authority) (length m.additional + opt_count m.edns) }
{}

/// What a client gets that may not ask is no longer than what it sent.
pub fn a_client_outside_gets_no_more_than_it_sent()
    ensures { (bytes : List ℕ) → speaks_in bytes ≡ true →
        length (compressed_within LEAST_LIMIT (turned_away bytes)) ≤ length bytes }
{}
