//! Words and what they ask for, in some rows: `Known` of `kex_words` proves more. Notes, and lines
//! that commands write, are seen through the call `kex`.
use kex_words::read;
use std::alloc::{AllocError, Global};
use std::test::Fail;

fn words_of(alloc: Global, line: &str) -> Result<Vec<String>, AllocError> {
    let mut words = Vec::new(alloc);
    for word in line.split(' ') {
        words.push(String::from_str(alloc, word)?)?;
    }
    Ok(words)
}

// What words ask for, or why they ask for nothing.
fn answer(alloc: Global, words: &[String]) -> Result<String, AllocError> {
    match read(alloc, words) {
        Ok(command) => format!(in alloc; "{command:?}"),
        Err(refusal) => format!(in alloc; "{refusal:?}"),
    }
}

const LINES: &str = r#"
kex run p => Stream(Stream { mode: Run { states: StateLimit { most: 4096 }, optimal: false }, program: "p", limits: RunLimits { max_input: 281474976710656, block: 65536, rings: None, workers: 1 } })
kex run --block 1 p --max-input 3 => Stream(Stream { mode: Run { states: StateLimit { most: 4096 }, optimal: false }, program: "p", limits: RunLimits { max_input: 3, block: 1, rings: None, workers: 1 } })
kex run --block=+1 --max-input=003 -- -p => Stream(Stream { mode: Run { states: StateLimit { most: 4096 }, optimal: false }, program: "-p", limits: RunLimits { max_input: 3, block: 1, rings: None, workers: 1 } })
kex run  => Stream(Stream { mode: Run { states: StateLimit { most: 4096 }, optimal: false }, program: "", limits: RunLimits { max_input: 281474976710656, block: 65536, rings: None, workers: 1 } })
kex run --rings 4096 p --max-input 3 => Stream(Stream { mode: Run { states: StateLimit { most: 4096 }, optimal: false }, program: "p", limits: RunLimits { max_input: 3, block: 65536, rings: Some(Rings { room: 4096 }), workers: 1 } })
kex run p --workers=64 --optimal => Stream(Stream { mode: Run { states: StateLimit { most: 4096 }, optimal: true }, program: "p", limits: RunLimits { max_input: 281474976710656, block: 65536, rings: None, workers: 64 } })
kex code p => Stream(Stream { mode: Code, program: "p", limits: RunLimits { max_input: 281474976710656, block: 65536, rings: None, workers: 1 } })
kex act p --max-input 3 --block 1 => Stream(Stream { mode: Act, program: "p", limits: RunLimits { max_input: 3, block: 1, rings: None, workers: 1 } })
kex test -- run => Stream(Stream { mode: Test, program: "run", limits: RunLimits { max_input: 281474976710656, block: 65536, rings: None, workers: 1 } })
kex check p => Check { program: "p", states: StateLimit { most: 4096 } }
kex trial 2 => Trial(TrialLines { count: 2, block: 65536, rings: None, workers: 1 })
kex trial 2 --rings 1 => Trial(TrialLines { count: 2, block: 65536, rings: Some(Rings { room: 1 }), workers: 1 })
kex trial 2 --workers 3 --rings 1 => Trial(TrialLines { count: 2, block: 65536, rings: Some(Rings { room: 1 }), workers: 3 })
kex compile p => Compile { program: "p", states: StateLimit { most: 4096 } }
kex exec --block 1 t --max-input 3 => Exec { table: "t", limits: RunLimits { max_input: 3, block: 1, rings: None, workers: 1 } }
kex each p => Each { program: "p", limits: LineLimits { states: StateLimit { most: 4096 }, max_input: 281474976710656, workers: 1 } }
kex each --workers 64 p --max-input 2 --states=7 => Each { program: "p", limits: LineLimits { states: StateLimit { most: 7 }, max_input: 2, workers: 64 } }
kex => Usage
kex  => Usage
kex p => Usage
kex -- run p => Usage
kex --block 3 run p => Usage
kex walk p => Usage
kex ru p => Usage
kex code => Usage
kex trial 1000001 => Usage
kex help => Usage
kex -h => Usage
kex --version => Usage
kex run p --help => Usage
kex run => Usage
kex run p q => Usage
kex run -- p --block 3 => Usage
kex run -p => Usage
kex code p --states 1 => Usage
kex run p --bloc 3 => Usage
kex check p --block 1 => Usage
kex trial 1 --states 1 => Usage
kex run p --block 2 --block 2 => Usage
kex run p --block => Usage
kex run p --block= => Usage
kex run p --block 0 => Usage
kex run p --block 1048577 => Usage
kex run p --max-input -1 => Usage
kex run p --max-input 281474976710657 => Usage
kex run p --max-input 18446744073709551616 => Usage
kex run p --block two => Usage
kex run p --rings 0 => Usage
kex run p --rings 1048577 => Usage
kex trial 1 --rings 0 => Usage
kex code p --rings 1 => Usage
kex each => Usage
kex each p --workers 0 => Usage
kex each p --workers 65 => Usage
kex each p --block 1 => Usage
kex each p --rings 1 => Usage
kex run p --workers 0 => Usage
kex run p --workers 2 --workers 2 => Usage
kex trial 1 --workers 65 => Usage
kex code p --workers 1 => Usage
kex exec t --workers 1 => Usage
kex run p --optimal=true => Usage
kex check p --optimal => Usage
kex compile => Usage
kex compile p --block 1 => Usage
kex exec t --states 1 => Usage
kex exec t --rings 1 => Usage
"#;

#[test]
fn words_are_read(rt: HostRuntime) -> Result<(), Fail> {
    for row in LINES.trim().lines() {
        let (line, want) = row.split_once(" => ").ok_or("no answer")?;
        let words = words_of(rt.alloc(), line)?;
        let got = answer(rt.alloc(), words.as_slice())?;
        assert_eq!(rt; got.as_str(), want, "at {line}");
    }
    assert_eq!(rt; answer(rt.alloc(), &[])?.as_str(), "Usage");
    Ok(())
}
