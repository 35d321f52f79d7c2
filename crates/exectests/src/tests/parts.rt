//! What a part of a machine file is, by itself: names, numbers, words, and members of a table.
use super::comparing::same;
use script::{Word, is_name, is_word_of_interrupt, word_of, words};
use std::test::*;
use taskscript::{
    are_strings, is_identifier, is_softint_pri, items_at, line_in, lines_of, member, number_of,
};

#[test]
fn each_word_has_its_text(rt: HostRuntime) -> Result<(), Fail> {
    let all = words(rt.alloc())?;
    same(&rt, "there are 82 words", "all", all.len(), 82);
    for word in &all {
        same(
            &rt,
            "a word has its text",
            word.text(),
            word_of(word.text()),
            Some(*word),
        );
    }
    Ok(())
}

#[test]
fn a_part_is_judged_by_itself(rt: HostRuntime) -> Result<(), Fail> {
    let case = "a part is judged by itself";
    same(&rt, case, "a variable", is_identifier(b"x_1"), true);
    same(&rt, case, "a capital letter", is_identifier(b"X"), false);
    same(&rt, case, "a name", is_name(b"timer.device"), true);
    same(&rt, case, "a space", is_name(b"a b"), false);
    same(&rt, case, "a number", number_of(b"$1F"), Some(31));
    same(&rt, case, "no number", number_of(b"01"), None);
    same(&rt, case, "a priority", is_softint_pri(-16), true);
    same(&rt, case, "no priority", is_softint_pri(1), false);
    Ok(())
}

#[test]
fn an_interrupt_has_few_words(rt: HostRuntime) -> Result<(), Fail> {
    let case = "an interrupt has few words";
    for (text, may) in [
        ("Cause", true),
        ("PutMsg", true),
        ("Jump", false),
        ("Wait", false),
    ] {
        same(
            &rt,
            case,
            text,
            word_of(text).map(|word: Word| is_word_of_interrupt(word)),
            Some(may),
        );
    }
    Ok(())
}

#[test]
fn a_table_has_its_members(rt: HostRuntime) -> Result<(), Fail> {
    let case = "a table has its members";
    let text = "quantum = 4\n[[task]]\nname = \"a\"\ncode = [\"Print 1\", \"Print 2\"]\n";
    let table = toml::table_from_str(rt.alloc(), text).expect(&rt, case);
    same(
        &rt,
        case,
        "quantum",
        member(&table, "quantum").is_some(),
        true,
    );
    same(&rt, case, "pool", member(&table, "pool").is_some(), false);
    let tasks = items_at(&table, "task");
    same(&rt, case, "task", tasks.len(), 1);
    let lines = lines_of(tasks.get(0).expect(&rt, case));
    same(&rt, case, "code", are_strings(lines), true);
    same(
        &rt,
        case,
        "line 1",
        line_in(lines.get(1).expect(&rt, case)),
        "Print 2",
    );
    Ok(())
}
