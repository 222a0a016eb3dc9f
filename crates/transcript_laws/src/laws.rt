// What there is.
ghost use Rattle.transcript_laws.specs.Exists.{PrefixesAreOfTranscripts, TranscriptsExist};

use sigaudit::transcripts_are_one;

/// Law: unless the words ask for pairs of fillings, it can't be that there is no transcript of
/// words and files, nor that none begins with what is written for a script's first lines.
pub fn transcripts_exist()
    ensures exists { TranscriptsExist }
    ensures begins { PrefixesAreOfTranscripts }
{
    transcripts_are_one();
}
