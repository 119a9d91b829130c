//! Laws of the commands.
ghost use Rattle.rx_serve.specs.Laws.{RecordsAreReplayed, RecordsAreConverted, SecondVersionStays, GoodInputIsTaken, AllSendsAreWritten, NoServeIsRefused, GoodClientsAreServed, AllSendsAreGiven, OnlyBadWordsAreRefused};

use routes::laws::{
    converts_to_itself, no_other_end, same_bytes_are_replayed, sends_are_written,
    session_is_converted,
};
use schedule_file::laws::one_reading;
use session_history::account_laws::{no_other_answer, sent_is_passed};

/// The record that `run` left at an end is replayed by `replay` over the same program and the same input, to the frames of the sends of its run.
pub fn records_are_replayed()
    ensures { RecordsAreReplayed }
{
    one_reading();
    same_bytes_are_replayed();
}

/// `convert` of a record of version 2 writes the same record, byte for byte.
pub fn second_version_stays()
    ensures { SecondVersionStays }
{
    one_reading();
    converts_to_itself();
}

/// The record that `run` left at an end is written again by `convert` over the same program and the same input, byte for byte.
pub fn records_are_converted()
    ensures { RecordsAreConverted }
{
    one_reading();
    session_is_converted();
}

/// BadWords is answered to words of no command alone.
pub fn only_bad_words_are_refused()
    ensures { OnlyBadWordsAreRefused }
{}

/// Where the input of a `run` is well-formed and within its limits, no answer says that it is refused.
pub fn good_input_is_taken()
    ensures { GoodInputIsTaken }
{
    no_other_end();
}

/// At an end of a `run` without `--hold` and without a recovery, all that its run sent was written, a frame a send.
pub fn all_sends_are_written()
    ensures { AllSendsAreWritten }
{
    sends_are_written();
}

/// No answer of a `serve` says that its input is refused, nor that a give failed.
pub fn no_serve_is_refused()
    ensures { NoServeIsRefused }
{}

/// Where no limit refuses an event that came from the clients of a port, no answer of a `serve` says so.
pub fn good_clients_are_served()
    ensures { GoodClientsAreServed }
{
    no_other_answer();
}

/// At an end of a `serve` without a recovery, where no client was found gone, each connection was given all that the run sends there.
pub fn all_sends_are_given()
    ensures { AllSendsAreGiven }
{
    sent_is_passed();
}
