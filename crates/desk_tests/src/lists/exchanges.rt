//! Exchanges over HTTP: gaps, messages that wait, are applied or have other contents, what is refused before
//! the desk is asked, a price, a choice, a calendar. Replies are those of the desk's written rules.

/// The list, with a report on gaps.
pub const EXCHANGES: &str = "
== exchanges
AskGaps,north
-- wanted
refused,unknown-series
-- after
[[rule]]
series = \"south\"
codes = [\"31\"]
[[rule]]
series = \"*\"
codes = [\"20\", \"21\"]

== the agreement, by a batch
Agree,north,06,4012345000009,06,5012345678900,1
-- wanted
agreed,north,1
-- after
gaps,north,first=1,next=1,greatest=,held=0,missing=0

== 2 waits
POST /messages HTTP/1.1\r
Content-Length: 63\r
\r
Message,1,06,4012345000009,06,5012345678900,2,,,,
EndMessage,1
-- wanted
HTTP/1.1 202 Accepted\r
Content-Type: application/json\r
Content-Length: 61\r
Connection: close\r
\r
{\"answer\":\"held\",\"number\":2,\"series\":\"north\",\"waiting_for\":1}
-- after
gaps,north,first=1,next=1,greatest=2,held=1,missing=1
missing,1,1

== gaps
GET /series/north/gaps HTTP/1.1\r
\r
-- wanted
HTTP/1.1 200 OK\r
Content-Type: application/json\r
Content-Length: 93\r
Connection: close\r
\r
{\"answer\":\"gaps\",\"first\":1,\"greatest\":2,\"held\":1,\"missing\":[[1,1]],\"next\":1,\"series\":\"north\"}
-- as before

== 1 is applied, and 2 with it
POST /messages HTTP/1.1\r
Content-Length: 194\r
\r
Message,1,06,4012345000009,06,5012345678900,1,1,20250301,02,GBP
Product,R1,03,15,9781234567897
ProductSupply,GB IE,,
SupplyDetail,04,06,4012345000009,North Books,21,
Price,,1,,,,,,
EndMessage,5
-- wanted
HTTP/1.1 200 OK\r
Content-Type: application/json\r
Content-Length: 109\r
Connection: close\r
\r
{\"answer\":\"applied\",\"deleted\":0,\"ignored\":0,\"number\":1,\"replaced\":1,\"series\":\"north\",\"unknown\":0,\"updated\":0}
-- after
gaps,north,first=1,next=3,greatest=2,held=0,missing=0

== other contents of 1
POST /messages HTTP/1.1\r
Content-Length: 63\r
\r
Message,1,06,4012345000009,06,5012345678900,1,,,,
EndMessage,1
-- wanted
HTTP/1.1 409 Conflict\r
Content-Type: application/json\r
Content-Length: 74\r
Connection: close\r
\r
{\"answer\":\"refused\",\"number\":1,\"reason\":\"other-contents\",\"series\":\"north\"}
-- as before

== a message without its length
POST /messages HTTP/1.1\r
\r
-- wanted
HTTP/1.1 411 Length Required\r
Content-Type: application/json\r
Content-Length: 47\r
Connection: close\r
\r
{\"answer\":\"refused\",\"reason\":\"length-required\"}
-- as before

== messages are not asked for
GET /messages HTTP/1.1\r
\r
-- wanted
HTTP/1.1 405 Method Not Allowed\r
Allow: POST\r
Content-Type: application/json\r
Content-Length: 50\r
Connection: close\r
\r
{\"answer\":\"refused\",\"reason\":\"method-not-allowed\"}
-- as before

== a price
GET /articles/9781234567897/price?day=20250301&country=GB&currency=GBP&type=02 HTTP/1.1\r
\r
-- wanted
HTTP/1.1 200 OK\r
Content-Type: application/json\r
Content-Length: 135\r
Connection: close\r
\r
{\"answer\":\"price\",\"isbn\":\"9781234567897\",\"offers\":[{\"amount\":\"1.000\",\"availability\":\"21\",\"place\":1,\"reference\":\"R1\",\"series\":\"north\"}]}
-- as before

== a choice
GET /articles/9781234567897/choice?day=20250301&country=GB&currency=GBP&type=02 HTTP/1.1\r
\r
-- wanted
HTTP/1.1 200 OK\r
Content-Type: application/json\r
Content-Length: 143\r
Connection: close\r
\r
{\"answer\":\"choice\",\"choice\":{\"amount\":\"1.000\",\"availability\":\"21\",\"place\":1,\"reference\":\"R1\",\"rule\":2,\"series\":\"north\"},\"isbn\":\"9781234567897\"}
-- as before

== a calendar
GET /articles/9781234567897/calendar?from=20250301&to=20250331&country=GB&currency=GBP&type=02 HTTP/1.1\r
\r
-- wanted
HTTP/1.1 200 OK\r
Content-Type: application/json\r
Content-Length: 187\r
Connection: close\r
\r
{\"answer\":\"calendar\",\"isbn\":\"9781234567897\",\"offers\":[{\"availability\":\"21\",\"place\":1,\"reference\":\"R1\",\"series\":\"north\",\"spans\":[{\"amount\":\"1.000\",\"first\":\"20250301\",\"last\":\"20250331\"}]}]}
-- as before
";
