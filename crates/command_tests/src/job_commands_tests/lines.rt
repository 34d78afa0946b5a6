//! Jobs over documents.

use super::worlds::{WHOLE, ran};
use std::test::Fail;

/// A job, lines, and their replies.
const ROWS: [(&str, &str, &str); 20] = [
    (
        r#"{"context":"field","script":"1"}"#,
        "{\"a\":1.5}\n\n[]\n{\n{}",
        "{\"error\":{\"kind\":\"line-number\"}}\n{\"error\":{\"kind\":\"line-field\"}}\n{\"error\":{\"kind\":\"line-syntax\"}}\n{\"result\":1}\n",
    ),
    (r#"{"context":"field","script":"1"}"#, "", ""),
    (r#"{"context":"field","script":"1"}"#, " \t\r\n\r\n\n", ""),
    (
        r#"{"context":"field","script":"1"}"#,
        "{}\r\n{}\r",
        "{\"result\":1}\n{\"result\":1}\n",
    ),
    (
        r#"{"context":"filter","mapping":{"n":"long"},"script":"doc.containsKey('n')"}"#,
        "{\"n\":5}\n{}\n{\"n\":\"x\"}\n",
        "{\"result\":true}\n{\"result\":true}\n{\"error\":{\"kind\":\"line-field\"}}\n",
    ),
    (
        r#"{"context":"score","script":"_score * 2"}"#,
        "{}\n{\"_score\":3}\n{\"_score\":-1}\n",
        "{\"result\":2}\n{\"result\":6}\n{\"error\":{\"kind\":\"line-field\"}}\n",
    ),
    (
        r#"{"context":"score","script":"_score - 5"}"#,
        "{\"_score\":7}\n{}\n",
        "{\"result\":2}\n{\"error\":{\"kind\":\"negative-score\"}}\n",
    ),
    (
        r#"{"context":"field","params":{"a":1},"script":"params.size() > 0"}"#,
        "{}\n",
        "{\"result\":true}\n",
    ),
    (
        r#"{"context":"field","script":"1 / 0"}"#,
        "{}\n",
        "{\"error\":{\"class\":\"ArithmeticException\",\"kind\":\"thrown\",\"message\":\"/ by zero\"}}\n",
    ),
    // Each line begins with all its turns.
    (
        r#"{"context":"field","limits":{"loop":5},"script":"int s = 0; for (int i = 0; i < 5; i++) { s += i } s"}"#,
        "{}\n{}\n",
        "{\"result\":10}\n{\"result\":10}\n",
    ),
    // .. and with all its room.
    (
        r#"{"context":"field","limits":{"room":4},"script":"'a' + 'b'"}"#,
        "{}\n{}\n",
        "{\"result\":\"ab\"}\n{\"result\":\"ab\"}\n",
    ),
    // What stands at a field, and where nothing does.
    (
        r#"{"context":"filter","mapping":{"n":"long"},"script":"(long) ((ScriptDocValues) doc.get('n')).getValue() > 3"}"#,
        "{\"n\":5}\n{\"n\":[7,1]}\n{\"t\":\"a\"}\n",
        "{\"result\":true}\n{\"result\":false}\n{\"error\":{\"class\":\"IllegalStateException\",\"kind\":\"thrown\",\"message\":\"A document doesn't have a value for a field! Use doc[<field>].size()==0 to check if a document is missing a field!\"}}\n",
    ),
    (
        r#"{"context":"filter","mapping":{"n":"long"},"script":"doc.get('m') == null"}"#,
        "{\"n\":5}\n",
        "{\"error\":{\"class\":\"IllegalArgumentException\",\"kind\":\"thrown\",\"message\":\"No field found for [m] in mapping\"}}\n",
    ),
    (
        r#"{"context":"score","mapping":{"n":"long"},"script":"_score * (long) ((ScriptDocValues) doc.get('n')).getValue() - 10"}"#,
        "{\"_score\":3,\"n\":4}\n{\"_score\":2,\"n\":4}\n",
        "{\"result\":2}\n{\"error\":{\"kind\":\"negative-score\"}}\n",
    ),
    // Nothing changes the parameters.
    (
        r#"{"context":"field","params":{"a":[1]},"script":"List l = params.get('a'); l.add(2)"}"#,
        "{}\n",
        "{\"error\":{\"class\":\"UnsupportedOperationException\",\"kind\":\"thrown\",\"message\":null}}\n",
    ),
    // The turns of a function's run are its own.
    (
        r#"{"context":"field","limits":{"loop":5},"script":"int s = 0; for (int i = 0; i < 6; i++) { s += i } s"}"#,
        "{}\n",
        "{\"error\":{\"kind\":\"limit-loop\"}}\n",
    ),
    (
        r#"{"context":"field","limits":{"loop":5},"script":"int s = 0; for (int i = 0; i < 3; i++) { s++ } for (int i = 0; i < 3; i++) { s++ } s"}"#,
        "{}\n",
        "{\"error\":{\"kind\":\"limit-loop\"}}\n",
    ),
    (
        r#"{"context":"field","limits":{"loop":5},"script":"int g() { int s = 0; for (int i = 0; i < 3; i++) { s++ } return s } int h() { int s = 0; for (int i = 0; i < 3; i++) { s++ } return s } g() + h()"}"#,
        "{}\n",
        "{\"result\":6}\n",
    ),
    (
        r#"{"context":"field","limits":{"depth":10},"script":"int f(int n) { return n == 0 ? 0 : f(n-1) + 1 } f(9)"}"#,
        "{}\n",
        "{\"result\":9}\n",
    ),
    (
        r#"{"context":"field","limits":{"depth":10},"script":"int f(int n) { return n == 0 ? 0 : f(n-1) + 1 } try { return f(10) } catch (Exception e) { return -1 }"}"#,
        "{}\n",
        "{\"error\":{\"kind\":\"limit-depth\"}}\n",
    ),
];

#[test]
fn documents(rt: HostRuntime) -> Result<(), Fail> {
    let alloc = rt.alloc();
    for (job, lines, replies) in &ROWS {
        let answer = ran(alloc, job.as_bytes(), lines.as_bytes(), &WHOLE)?;
        assert!(rt; answer.0.as_slice() == replies.as_bytes(), "{job}");
    }
    Ok(())
}
