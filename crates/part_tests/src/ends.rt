use crate::asserting::assert_same;
use plain_state::End;

/// Ends, each with its text.
const TEXTS: [(End, &str); 3] = [
    (
        End::HeapFull {
            asked: 64,
            room: 4032,
            live: 0,
        },
        "heap full asked 64 room 4032 live 0",
    ),
    (End::WeakCell, "weak cell"),
    (End::IntoRaw, "pointer into raw"),
];

#[test]
fn ends_have_their_texts(rt: HostRuntime) {
    for (end, wanted) in &TEXTS {
        let text = end.to_string(rt.alloc()).expect(&rt, "no text");
        assert_same(&rt, &text.as_str(), wanted);
    }
}
