use run_words::{Options, WordsFault, read_words};
use std::alloc::{AllocError, Global};
use std::test::Fail;

/// The words of a row: between them stand bars.
fn words_of(alloc: Global, row: &str) -> Result<Vec<String>, AllocError> {
    let mut words = Vec::new(alloc);
    for word in row.split('|') {
        words.push(String::from_str(alloc, word)?)?;
    }
    Ok(words)
}

/// The answer as a row of text, which begins with the script's location in `<>` where one is named.
fn told(alloc: Global, answer: &Result<Options, WordsFault>) -> Result<String, AllocError> {
    match answer {
        Ok(options) => {
            let threads = if options.threads { "on" } else { "off" };
            let quiet = if options.quiet { "quiet" } else { "loud" };
            let order = options.order;
            let line = options.line.as_str();
            let told = format!(in alloc; "{threads} {order} {quiet} [{line}]")?;
            match &options.script {
                None => Ok(told),
                Some(script) => {
                    let script = script.as_str();
                    format!(in alloc; "<{script}> {told}")
                }
            }
        }
        Err(WordsFault::Words) => String::from_str(alloc, "Words"),
        Err(WordsFault::NoLine) => String::from_str(alloc, "NoLine"),
        Err(WordsFault::OutOfMemory) => String::from_str(alloc, "OutOfMemory"),
    }
}

/// Words, and behind `=>` what they are read as.
const ROWS: &str = "filesrc|location=a|!|fakesink => on 0 loud [filesrc location=a ! fakesink]
--threads|maybe|filesrc|!|fakesink => Words
--threads|off|--order|7|--quiet|filesrc|location=a|!|fakesink => off 7 quiet [filesrc location=a ! fakesink]
--threads=on|--order=18446744073709551615|x => on 18446744073709551615 loud [x]
fakesrc|name=a b => on 0 loud [fakesrc name=a\\ b]
 |a  b => on 0 loud [\\  a\\ \\ b]
a\\ b => on 0 loud [a\\\\ b]
filesrc|--quiet|!|--threads|off|fakesink => off 0 quiet [filesrc ! fakesink]
--quiet|--|--order|1 => on 0 quiet [--order 1]
a|--|-b|--|c => on 0 loud [a -b -- c]
- => on 0 loud [-]
a||b => on 0 loud [a  b]
é|ü x => on 0 loud [é ü\\ x]
--quiet => NoLine
--order|3|-- => NoLine
--order|0|x => on 0 loud [x]
--order|1|--order|1|x => Words
--threads|on|--threads|off|x => Words
--quiet|--quiet|x => Words
--quiet=on|x => Words
--order|-1|x => Words
--order=-1|x => Words
--order|01|x => Words
--order|00|x => Words
--order|+1|x => Words
--order||x => Words
--order=|x => Words
--order|1a|x => Words
--order|18446744073709551616|x => Words
x|--order => Words
--order|--|7 => Words
--threads|ON|x => Words
--threads=|x => Words
--thread|on|x => Words
-q|x => Words
--help => Words
-h|x => Words
--version => Words
-V|x => Words
--script|x|y => <x> on 0 loud [y]
--script=x|y => <x> on 0 loud [y]
--script=a b/é=c|y => <a b/é=c> on 0 loud [y]
--script=|y => <> on 0 loud [y]
--script||y => <> on 0 loud [y]
--script|x|--threads=off|--order|7|--quiet|--|y => <x> off 7 quiet [y]
--threads=off|--order|7|--quiet|--script=x|y => <x> off 7 quiet [y]
filesrc|--script|x|!|fakesink => <x> on 0 loud [filesrc ! fakesink]
y|--script=x => <x> on 0 loud [y]
--|--script|x => on 0 loud [--script x]
--script=--quiet|y => <--quiet> on 0 loud [y]
--script|--quiet|y => Words
--script|-x|y => Words
--script|-|y => <-> on 0 loud [y]
--script|x|--script|y|z => Words
--script=x|--script=x|z => Words
--script => Words
y|--script => Words
--script|--|y => Words
--script|x|--threads|maybe|y => Words
--script|x|--order|01 => Words
--script|x => NoLine
--script=x|--quiet|-- => NoLine
--load|1 => Words
--|-1|--help => on 0 loud [-1 --help]";

#[test]
fn words_are_read(rt: HostRuntime) -> Result<(), Fail> {
    let alloc = rt.alloc();
    for row in ROWS.lines() {
        let (words, wanted) = row.split_once(" => ").ok_or("a row")?;
        let words = words_of(alloc, words)?;
        let answer = told(alloc, &read_words(alloc, words.as_slice()))?;
        assert!(rt; answer.as_str() == wanted, "{row}: {answer}");
    }
    Ok(())
}

#[test]
fn no_word_is_no_line(rt: HostRuntime) {
    assert!(rt; matches!(read_words(rt.alloc(), &[]), Err(WordsFault::NoLine)));
}
