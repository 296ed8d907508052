//! Laws of the answers, each the contract of a function that does nothing.
ghost use Rattle.repair_cli.specs.Laws.{OneProgram, OneFault, OneRefusal, NeverBoth, OneReply, OneEnd};
ghost use Rattle.repair_cli.specs.Laws.{OneSuite, OneSuiteFault, OneSuiteRefusal, NeverBothOfSuite};
ghost use Rattle.repair_cli.specs.Laws.{EverySourceIsJudged, EverySuiteIsJudged, AcceptedAreAnswered, PatchedSourcesPass};

use bare_runs::runs_alike;
use patch_reread::patches_read_again;

/// A source states one program at most, or has one first fault at most and so one message, and
/// never both; so it is with a suite, which states its tests with their limit. Where the files are
/// known, one answer at most is right for a call's words and files, with one text.
pub fn one_answer()
    ensures program { OneProgram }
    ensures fault { OneFault }
    ensures refusal { OneRefusal }
    ensures either { NeverBoth }
    ensures suite_tests { OneSuite }
    ensures suite_fault { OneSuiteFault }
    ensures suite { OneSuiteRefusal }
    ensures suite_either { NeverBothOfSuite }
    ensures reply { OneReply }
{}

/// A source, whatever its bytes and however long, states a program or has a first fault; and a
/// suite states tests with a limit or has a first refusal. Such a fault or refusal is never that
/// memory ran out.
pub fn all_are_judged()
    ensures source { EverySourceIsJudged }
    ensures suite { EverySuiteIsJudged }
{}

/// Two calls with the same words and the same files that end with an answer or a refusal end with
/// one status, and append the same bytes to standard output and to standard error, whatever
/// failures were counted.
pub fn one_end()
    ensures { OneEnd }
{}

/// A call whose words are a command, and whose files are known and state a program and tests, ends
/// with an answer or runs out of memory, unless a call on the files or on a sink failed.
pub fn accepted_are_answered()
    ensures { AcceptedAreAnswered }
{}

/// Where a patched source is right to write, it passes: it has tokens, which derive a program
/// without a fault of names and kinds, and with its names resolved that program passes every test
/// of the job.
pub fn patched_sources_pass()
    ensures { PatchedSourcesPass }
{
    patches_read_again();
    runs_alike();
}
