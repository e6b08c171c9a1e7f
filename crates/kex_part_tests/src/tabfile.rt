//! At which line a changed table file breaks.
use kex_tabfile::check_table;
use std::alloc::Global;
use std::test::Fail;

// How many stages a file has, or why it is refused.
fn answer(alloc: Global, file: &[u8]) -> Result<String, Fail> {
    match check_table(alloc, file) {
        Ok(checked) => {
            let stages = checked.shorten(alloc)?.stages().len();
            Ok(format!(in alloc; "{stages}")?)
        }
        Err(refusal) => Ok(format!(in alloc; "{refusal}")?),
    }
}

// The table file of `main := /a*/`.
const STAR: &str = "kextable 1
text 12
main := /a*/
stage 1 classes 2 states 1
state 0 (1,2)
init ,0,1
go 0 1 0 $1;.,0,1
end
";

// A line of the file of `main := /a*/` by its number, what it is replaced by, or `-` where it is left
// out, and the answer.
const ROWS: &str = r#"
1|kextable 1|1
1|kextable 2|line 1 of the table file isn't right
2|text 11|line 2 of the table file isn't right
2|text 012|line 2 of the table file isn't right
2|text 13|line 2 of the table file isn't right
3|main := /b*/|1
3|main := /ab/|line 4 of the table file isn't right
3|main := "a*/|bad token at byte 8
4|stage 1 classes 2 states 2|line 8 of the table file isn't right
4|stage 1 classes 2 states 0|line 4 of the table file isn't right
4|stage 1 classes 3 states 1|line 4 of the table file isn't right
5|state 0 (2,1)|line 5 of the table file isn't right
6|init ,1,0|line 6 of the table file isn't right
7|go 0 1 0 $1;.,1,0|line 7 of the table file isn't right
7|go 0 1 1 $1;.,0,1|line 7 of the table file isn't right
7|end|line 7 of the table file isn't right
7|-|line 7 of the table file isn't right
8|-|line 8 of the table file isn't right
5|-|line 5 of the table file isn't right
8|ends|line 8 of the table file isn't right
"#;

#[test]
fn changed_lines_break(rt: HostRuntime) -> Result<(), Fail> {
    let alloc = rt.alloc();
    for row in ROWS.trim().lines() {
        let (number, rest) = row.split_once('|').ok_or("no number")?;
        let (line, want) = rest.split_once('|').ok_or("no answer")?;
        let number = number.parse::<usize>()?;
        let mut file = Vec::new(alloc);
        for (i, old) in STAR.lines().enumerate() {
            let new = if i + 1 == number { line } else { old };
            if new != "-" {
                file.extend_from_slice(new.as_bytes())?;
                file.push(b'\n')?;
            }
        }
        let got = answer(alloc, &file)?;
        assert_eq!(rt; got.as_str(), want, "{row}");
    }
    Ok(())
}
