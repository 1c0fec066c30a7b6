//! Connector settings: what their files are, and which payments they take.

use crate::cases::expanded;
use connector_settings::{Settings, SettingsError, graph_of, read_settings, settings_fit, takes};
use constraint_graph::holds;
use key_table::{KeyTable, NoMemory, Payment, Stop};
use payment_reader::read_payment;
use std::alloc::Global;
use std::test::Fail;

// Each case is a key table, a place in a file, the file and a payment, in both of which an `@` stands for the end of each line
// that follows. A line begins with what the file is then: a fault, as its code and its path below the place, or marks that say
// whether the settings take the payment, whether the goal of their graph holds of it, and whether the node of each connector
// does.
const CASES: &str = r##"built in
 <- @
{}

1 <- [
1 <- []]
1 <- [{"connector_name":"a"},]
3 <- {}
3 <- null
3 <- 0
3 <- "[]"
-- <- []
2/0/connector_name <- [{}]
3/0 <- [0]
3/0 <- [null]
3/0 <- [[]]
--- <- [{"connector_name":"a"}]
---- <- [{"connector_name":"a"},{"connector_name":"a"}]
3/1 <- [{"connector_name":"a"},0]
2/1/connector_name <- [{"connector_name":"a"},{}]
2/0/connector_name <- [{},0]
3/0 <- [0,{}]
--- <- [{"connector_name":"a","x":|125*[||125*]|}]
1 <- [{"connector_name":"a","x":|126*[||126*]|}]
|258*-| <- [|255*{"connector_name":"a"},|{"connector_name":"a"}]
5 <- [|256*{"connector_name":"a"},|{"connector_name":"a"}]
3/0 <- [|255*0,|0]
5 <- [|256*0,|0]
===
built in
/0 <- [@]
{}

2/connector_name <- {}
3/connector_name <- {"connector_name":null}
3/connector_name <- {"connector_name":0}
--- <- {"connector_name":""}
--- <- {"connector_name":"|255*n|"}
5/connector_name <- {"connector_name":"|256*n|"}
--- <- {"connector_name":"|127*é|n"}
5/connector_name <- {"connector_name":"|128*é|"}
--- <- {"connector_name":"a","merchant_connector_id":null}
--- <- {"connector_name":"a","merchant_connector_id":""}
3/merchant_connector_id <- {"connector_name":"a","merchant_connector_id":0}
--- <- {"connector_name":"a","merchant_connector_id":"|255*i|"}
5/merchant_connector_id <- {"connector_name":"a","merchant_connector_id":"|256*i|"}
--- <- {"connector_name":"a","disabled":null}
--- <- {"connector_name":"a","disabled":false}
--- <- {"connector_name":"a","disabled":true}
3/disabled <- {"connector_name":"a","disabled":0}
3/disabled <- {"connector_name":"a","disabled":"false"}
3/disabled <- {"connector_name":"a","disabled":[]}
--- <- {"connector_name":"a","payment_methods_enabled":null}
--- <- {"connector_name":"a","payment_methods_enabled":[]}
3/payment_methods_enabled <- {"connector_name":"a","payment_methods_enabled":{}}
3/payment_methods_enabled <- {"connector_name":"a","payment_methods_enabled":"card"}
--- <- {"connector_name":"a","payment_methods_enabled":[|4095*{"payment_method":"card"},|{"payment_method":"card"}]}
5/payment_methods_enabled <- {"connector_name":"a","payment_methods_enabled":[|4096*{"payment_method":"card"},|{"payment_method":"card"}]}
3/payment_methods_enabled/0 <- {"connector_name":"a","payment_methods_enabled":[|4095*0,|0]}
5/payment_methods_enabled <- {"connector_name":"a","payment_methods_enabled":[|4096*0,|0]}
--- <- {"id":0,"connector_name":"a","DISABLED":0,"payment_methods":0}
3/disabled <- {"connector_name":"a","disabled":false,"disabled":0}
--- <- {"connector_name":"a","disabled":0,"disabled":false}
2/connector_name <- {"merchant_connector_id":0}
3/connector_name <- {"connector_name":0,"merchant_connector_id":0}
3/connector_name <- {"merchant_connector_id":0,"connector_name":0}
3/merchant_connector_id <- {"connector_name":"a","merchant_connector_id":0,"disabled":0}
3/merchant_connector_id <- {"disabled":0,"merchant_connector_id":0,"connector_name":"a"}
3/disabled <- {"connector_name":"a","disabled":0,"payment_methods_enabled":0}
3/disabled <- {"payment_methods_enabled":0,"disabled":0,"connector_name":"a"}
===
built in
/0/payment_methods_enabled/0 <- [{"connector_name":"a","payment_methods_enabled":[@]}]
{}

3 <- 0
3 <- null
2/payment_method <- {}
3/payment_method <- {"payment_method":null}
3/payment_method <- {"payment_method":0}
6/payment_method <- {"payment_method":"cash"}
6/payment_method <- {"payment_method":"Card"}
6/payment_method <- {"payment_method":""}
6/payment_method <- {"payment_method":"credit"}
--- <- {"payment_method":"card"}
--- <- {"payment_method":"pay_later"}
--- <- {"payment_method":"card","payment_method_types":null}
--- <- {"payment_method":"card","payment_method_types":[]}
3/payment_method_types <- {"payment_method":"card","payment_method_types":{}}
3/payment_method_types <- {"payment_method":"card","payment_method_types":"credit"}
3/payment_method_types/0 <- {"payment_method":"card","payment_method_types":[|4095*0,|0]}
5/payment_method_types <- {"payment_method":"card","payment_method_types":[|4096*0,|0]}
2/payment_method_types/1/payment_method_type <- {"payment_method":"card","payment_method_types":[{"payment_method_type":"credit"},{},0]}
2/payment_method <- {"payment_method_types":0}
6/payment_method <- {"payment_method":"cash","payment_method_types":0}
6/payment_method <- {"payment_method_types":0,"payment_method":"cash"}
===
built in
/0/payment_methods_enabled/0/payment_method_types/0 <- [{"connector_name":"a","payment_methods_enabled":[{"payment_method":"card","payment_method_types":[@]}]}]
{"payment_method":"card","payment_method_type":"credit"}

3 <- 0
3 <- null
2/payment_method_type <- {}
3/payment_method_type <- {"payment_method_type":null}
3/payment_method_type <- {"payment_method_type":0}
6/payment_method_type <- {"payment_method_type":"card"}
6/payment_method_type <- {"payment_method_type":"Credit"}
+++ <- {"payment_method_type":"credit"}
--- <- {"payment_method_type":"ideal"}
+++ <- {"payment_method_type":"credit","recurring_enabled":[0],"card_network":0}
+++ <- {"payment_method_type":"credit","card_networks":null,"accepted_currencies":null,"accepted_countries":null,"minimum_amount":null,"maximum_amount":null}
+++ <- {"payment_method_type":"credit","card_networks":[]}
3/card_networks <- {"payment_method_type":"credit","card_networks":{}}
3/card_networks <- {"payment_method_type":"credit","card_networks":"Visa"}
--- <- {"payment_method_type":"credit","card_networks":["Visa","JCB","Visa"]}
3/card_networks/0 <- {"payment_method_type":"credit","card_networks":[null]}
6/card_networks/1 <- {"payment_method_type":"credit","card_networks":["Visa","visa"]}
6/card_networks/0 <- {"payment_method_type":"credit","card_networks":["USD",0]}
3/card_networks/0 <- {"payment_method_type":"credit","card_networks":[0,"USD"]}
--- <- {"payment_method_type":"credit","card_networks":[|4095*"Visa",|"Visa"]}
5/card_networks <- {"payment_method_type":"credit","card_networks":[|4096*"Visa",|"Visa"]}
3/card_networks/0 <- {"payment_method_type":"credit","card_networks":[|4095*0,|0]}
5/card_networks <- {"payment_method_type":"credit","card_networks":[|4096*0,|0]}
3/accepted_currencies <- {"payment_method_type":"credit","accepted_currencies":"all_accepted"}
3/accepted_currencies <- {"payment_method_type":"credit","accepted_currencies":[]}
2/accepted_currencies/type <- {"payment_method_type":"credit","accepted_currencies":{}}
2/accepted_currencies/type <- {"payment_method_type":"credit","accepted_currencies":{"list":0}}
3/accepted_currencies/type <- {"payment_method_type":"credit","accepted_currencies":{"type":null}}
3/accepted_currencies/type <- {"payment_method_type":"credit","accepted_currencies":{"type":0,"list":0}}
3/accepted_currencies/type <- {"payment_method_type":"credit","accepted_currencies":{"list":0,"type":0}}
6/accepted_currencies/type <- {"payment_method_type":"credit","accepted_currencies":{"type":"some"}}
6/accepted_currencies/type <- {"payment_method_type":"credit","accepted_currencies":{"type":"Enable_only","list":[]}}
6/accepted_currencies/type <- {"payment_method_type":"credit","accepted_currencies":{"list":0,"type":""}}
+++ <- {"payment_method_type":"credit","accepted_currencies":{"type":"all_accepted"}}
+++ <- {"payment_method_type":"credit","accepted_currencies":{"type":"all_accepted","list":0}}
2/accepted_currencies/list <- {"payment_method_type":"credit","accepted_currencies":{"type":"enable_only"}}
2/accepted_currencies/list <- {"payment_method_type":"credit","accepted_currencies":{"type":"disable_only"}}
3/accepted_currencies/list <- {"payment_method_type":"credit","accepted_currencies":{"type":"enable_only","list":null}}
3/accepted_currencies/list <- {"payment_method_type":"credit","accepted_currencies":{"type":"disable_only","list":null}}
3/accepted_currencies/list <- {"payment_method_type":"credit","accepted_currencies":{"type":"enable_only","list":"USD"}}
--- <- {"payment_method_type":"credit","accepted_currencies":{"type":"enable_only","list":[]}}
+++ <- {"payment_method_type":"credit","accepted_currencies":{"type":"disable_only","list":[]}}
--- <- {"payment_method_type":"credit","accepted_currencies":{"type":"enable_only","list":["USD","JPY","USD"]}}
+++ <- {"payment_method_type":"credit","accepted_currencies":{"type":"disable_only","list":["USD","JPY","USD"]}}
6/accepted_currencies/list/0 <- {"payment_method_type":"credit","accepted_currencies":{"type":"enable_only","list":["US"]}}
6/accepted_currencies/list/1 <- {"payment_method_type":"credit","accepted_currencies":{"type":"disable_only","list":["USD","usd"]}}
6/accepted_currencies/list/0 <- {"payment_method_type":"credit","accepted_currencies":{"type":"disable_only","list":["XXX",0]}}
3/accepted_currencies/list/0 <- {"payment_method_type":"credit","accepted_currencies":{"type":"enable_only","list":[0,"XXX"]}}
--- <- {"payment_method_type":"credit","accepted_currencies":{"type":"enable_only","list":[|4095*"USD",|"USD"]}}
5/accepted_currencies/list <- {"payment_method_type":"credit","accepted_currencies":{"type":"enable_only","list":[|4096*"USD",|"USD"]}}
3/accepted_currencies/list/0 <- {"payment_method_type":"credit","accepted_currencies":{"type":"disable_only","list":[|4095*0,|0]}}
5/accepted_currencies/list <- {"payment_method_type":"credit","accepted_currencies":{"type":"disable_only","list":[|4096*0,|0]}}
3/accepted_countries <- {"payment_method_type":"credit","accepted_countries":"all_accepted"}
2/accepted_countries/type <- {"payment_method_type":"credit","accepted_countries":{}}
3/accepted_countries/type <- {"payment_method_type":"credit","accepted_countries":{"type":null}}
6/accepted_countries/type <- {"payment_method_type":"credit","accepted_countries":{"type":"some"}}
+++ <- {"payment_method_type":"credit","accepted_countries":{"type":"all_accepted","list":["XX"]}}
2/accepted_countries/list <- {"payment_method_type":"credit","accepted_countries":{"type":"enable_only"}}
3/accepted_countries/list <- {"payment_method_type":"credit","accepted_countries":{"type":"disable_only","list":null}}
--- <- {"payment_method_type":"credit","accepted_countries":{"type":"enable_only","list":[]}}
+++ <- {"payment_method_type":"credit","accepted_countries":{"type":"disable_only","list":[]}}
--- <- {"payment_method_type":"credit","accepted_countries":{"type":"enable_only","list":["US","JP"]}}
+++ <- {"payment_method_type":"credit","accepted_countries":{"type":"disable_only","list":["US","JP"]}}
6/accepted_countries/list/0 <- {"payment_method_type":"credit","accepted_countries":{"type":"enable_only","list":["USD"]}}
6/accepted_countries/list/1 <- {"payment_method_type":"credit","accepted_countries":{"type":"disable_only","list":["US","us"]}}
+++ <- {"payment_method_type":"credit","accepted_countries":{"type":"disable_only","list":[|4095*"US",|"US"]}}
5/accepted_countries/list <- {"payment_method_type":"credit","accepted_countries":{"type":"enable_only","list":[|4096*0,|0]}}
3/minimum_amount <- {"payment_method_type":"credit","minimum_amount":"1"}
3/minimum_amount <- {"payment_method_type":"credit","minimum_amount":true}
4/minimum_amount <- {"payment_method_type":"credit","minimum_amount":1.5}
4/minimum_amount <- {"payment_method_type":"credit","minimum_amount":1.0}
4/minimum_amount <- {"payment_method_type":"credit","minimum_amount":1e2}
4/minimum_amount <- {"payment_method_type":"credit","minimum_amount":9223372036854775808}
4/minimum_amount <- {"payment_method_type":"credit","minimum_amount":-9223372036854775809}
--- <- {"payment_method_type":"credit","minimum_amount":9223372036854775807}
--- <- {"payment_method_type":"credit","minimum_amount":-9223372036854775808}
3/maximum_amount <- {"payment_method_type":"credit","maximum_amount":[]}
4/maximum_amount <- {"payment_method_type":"credit","maximum_amount":0.0}
4/maximum_amount <- {"payment_method_type":"credit","maximum_amount":9223372036854775808}
--- <- {"payment_method_type":"credit","maximum_amount":9223372036854775807}
--- <- {"payment_method_type":"credit","maximum_amount":-9223372036854775808}
--- <- {"payment_method_type":"credit","minimum_amount":5,"maximum_amount":null}
--- <- {"payment_method_type":"credit","minimum_amount":null,"maximum_amount":5}
--- <- {"payment_method_type":"credit","minimum_amount":5,"maximum_amount":6}
--- <- {"payment_method_type":"credit","minimum_amount":5,"maximum_amount":5}
7/minimum_amount <- {"payment_method_type":"credit","minimum_amount":5,"maximum_amount":4}
7/minimum_amount <- {"maximum_amount":4,"minimum_amount":5,"payment_method_type":"credit"}
7/minimum_amount <- {"payment_method_type":"credit","minimum_amount":-4,"maximum_amount":-5}
7/minimum_amount <- {"payment_method_type":"credit","minimum_amount":9223372036854775807,"maximum_amount":-9223372036854775808}
3/payment_method_type <- {"payment_method_type":0,"card_networks":0}
3/payment_method_type <- {"card_networks":0,"payment_method_type":0}
3/card_networks <- {"payment_method_type":"credit","card_networks":0,"accepted_currencies":0}
3/card_networks <- {"accepted_currencies":0,"card_networks":0,"payment_method_type":"credit"}
3/accepted_currencies <- {"payment_method_type":"credit","accepted_currencies":0,"accepted_countries":0}
3/accepted_currencies <- {"accepted_countries":0,"accepted_currencies":0,"payment_method_type":"credit"}
3/accepted_countries <- {"payment_method_type":"credit","accepted_countries":0,"minimum_amount":0.5}
3/accepted_countries <- {"minimum_amount":0.5,"accepted_countries":0,"payment_method_type":"credit"}
4/minimum_amount <- {"payment_method_type":"credit","minimum_amount":0.5,"maximum_amount":"5"}
4/minimum_amount <- {"maximum_amount":"5","minimum_amount":0.5,"payment_method_type":"credit"}
3/maximum_amount <- {"payment_method_type":"credit","minimum_amount":5,"maximum_amount":"4"}
===
built in
/0/payment_methods_enabled/0/payment_method_types/0 <- [{"connector_name":"stripe","merchant_connector_id":"mca_1","disabled":false,"payment_methods_enabled":[{"payment_method":"card","payment_method_types":[{"payment_method_type":"credit","card_networks":["Visa","Mastercard"],"accepted_currencies":{"type":"enable_only","list":[@,"EUR"]},"accepted_countries":null,"minimum_amount":100,"maximum_amount":1000000,"recurring_enabled":true}]}]}]
{}

6/accepted_currencies/list/0 <- "XXX"
--- <- "USD"
===
built in
/0/payment_methods_enabled/0/payment_method_types/0 <- [{"connector_name":"stripe","merchant_connector_id":"mca_1","disabled":false,"payment_methods_enabled":[{"payment_method":"card","payment_method_types":[{"payment_method_type":"credit","card_networks":["Visa","Mastercard"],"accepted_currencies":{"type":"enable_only","list":["USD","EUR"]},"accepted_countries":null,"minimum_amount":100,"maximum_amount":@,"recurring_enabled":true}]}]}]
{}

7/minimum_amount <- 99
--- <- 100
===
key = [{ name = "payment_method", kind = "enum", variants = ["card"] }, { name = "payment_method_type", kind = "enum", variants = ["credit"] }, { name = "billing_country", kind = "enum", variants = ["US"] }, { name = "amount", kind = "enum", variants = ["low"] }]
/0/payment_methods_enabled/0/payment_method_types/0 <- [{"connector_name":"a","payment_methods_enabled":[{"payment_method":"card","payment_method_types":[@]}]}]
{"payment_method":"card","payment_method_type":"credit"}

+++ <- {"payment_method_type":"credit"}
+++ <- {"payment_method_type":"credit","card_networks":null,"accepted_currencies":null,"minimum_amount":null,"maximum_amount":null}
+++ <- {"payment_method_type":"credit","card_networks":[]}
6/card_networks/0 <- {"payment_method_type":"credit","card_networks":["Visa"]}
+++ <- {"payment_method_type":"credit","accepted_currencies":{"type":"all_accepted"}}
6/accepted_currencies/list <- {"payment_method_type":"credit","accepted_currencies":{"type":"enable_only","list":[]}}
6/accepted_currencies/list <- {"payment_method_type":"credit","accepted_currencies":{"type":"disable_only","list":[]}}
6/accepted_currencies/list/0 <- {"payment_method_type":"credit","accepted_currencies":{"type":"enable_only","list":["USD"]}}
6/accepted_currencies/list/0 <- {"payment_method_type":"credit","accepted_currencies":{"type":"disable_only","list":["USD"]}}
3/accepted_currencies/list/0 <- {"payment_method_type":"credit","accepted_currencies":{"type":"disable_only","list":[0]}}
--- <- {"payment_method_type":"credit","accepted_countries":{"type":"enable_only","list":[]}}
+++ <- {"payment_method_type":"credit","accepted_countries":{"type":"disable_only","list":[]}}
6/minimum_amount <- {"payment_method_type":"credit","minimum_amount":5}
6/maximum_amount <- {"payment_method_type":"credit","maximum_amount":5}
6/minimum_amount <- {"payment_method_type":"credit","minimum_amount":5,"maximum_amount":4}
3/minimum_amount <- {"payment_method_type":"credit","minimum_amount":"5"}
4/minimum_amount <- {"payment_method_type":"credit","minimum_amount":0.5}
===
key = [{ name = "payment_method", kind = "enum", variants = ["card"] }, { name = "payment_method_type", kind = "text" }, { name = "currency", kind = "number" }]
/0/payment_methods_enabled/0 <- [{"connector_name":"a","payment_methods_enabled":[@]}]
{"payment_method":"card","payment_method_type":"credit"}

--- <- {"payment_method":"card","payment_method_types":[]}
6/payment_method_types/0/payment_method_type <- {"payment_method":"card","payment_method_types":[{"payment_method_type":"credit"}]}
6/payment_method <- {"payment_method":"wallet"}
===
key = [{ name = "payment_method", kind = "enum", variants = ["card"] }, { name = "payment_method_type", kind = "enum", variants = ["credit"] }, { name = "card_network", kind = "metadata" }, { name = "currency", kind = "number" }, { name = "billing_country", kind = "text" }]
/0/payment_methods_enabled/0/payment_method_types/0 <- [{"connector_name":"a","payment_methods_enabled":[{"payment_method":"card","payment_method_types":[@]}]}]
{"payment_method":"card","payment_method_type":"credit","currency":1,"billing_country":"US"}

+++ <- {"payment_method_type":"credit","card_networks":[],"accepted_currencies":null,"accepted_countries":{"type":"all_accepted"}}
6/card_networks/0 <- {"payment_method_type":"credit","card_networks":["Visa"]}
6/accepted_currencies/list <- {"payment_method_type":"credit","accepted_currencies":{"type":"enable_only","list":[]}}
6/accepted_countries/list <- {"payment_method_type":"credit","accepted_countries":{"type":"enable_only","list":[]}}
6/accepted_countries/list <- {"payment_method_type":"credit","accepted_countries":{"type":"disable_only","list":[]}}
6/accepted_countries/list/0 <- {"payment_method_type":"credit","accepted_countries":{"type":"disable_only","list":["US"]}}
6/minimum_amount <- {"payment_method_type":"credit","minimum_amount":5}
6/maximum_amount <- {"payment_method_type":"credit","maximum_amount":5}
===
key = []
 <- @
{}

-- <- []
--- <- [{"connector_name":"a","payment_methods_enabled":[]}]
6/0/payment_methods_enabled/0/payment_method <- [{"connector_name":"a","payment_methods_enabled":[{"payment_method":"card"}]}]
===
built in
 <- [@]
{"payment_method":"card","payment_method_type":"debit"}

++-+ <- {"connector_name":"a","payment_methods_enabled":[{"payment_method":"card","payment_method_types":[|2048*{"payment_method_type":"credit"},|{"payment_method_type":"credit"}]}]},{"connector_name":"b","payment_methods_enabled":[{"payment_method":"card","payment_method_types":[|2046*{"payment_method_type":"credit"},|{"payment_method_type":"debit"}]}]}
5/1/payment_methods_enabled/0/payment_method_types/2047 <- {"connector_name":"a","payment_methods_enabled":[{"payment_method":"card","payment_method_types":[|2048*{"payment_method_type":"credit"},|{"payment_method_type":"credit"}]}]},{"connector_name":"b","payment_methods_enabled":[{"payment_method":"card","payment_method_types":[|2047*{"payment_method_type":"credit"},|{"payment_method_type":"debit"}]}]}
5/1/payment_methods_enabled/0/payment_method_types/2047 <- {"connector_name":"a","payment_methods_enabled":[{"payment_method":"card","payment_method_types":[|2048*{"payment_method_type":"credit"},|{"payment_method_type":"credit"}]}]},{"connector_name":"b","payment_methods_enabled":[{"payment_method":"card","payment_method_types":[|2047*{"payment_method_type":"credit"},|0]}]}
3/1/payment_methods_enabled/0/payment_method_types/2046 <- {"connector_name":"a","payment_methods_enabled":[{"payment_method":"card","payment_method_types":[|2048*{"payment_method_type":"credit"},|{"payment_method_type":"credit"}]}]},{"connector_name":"b","payment_methods_enabled":[{"payment_method":"card","payment_method_types":[|2046*{"payment_method_type":"credit"},|0,0]}]}
5/0/payment_methods_enabled/1/payment_method_types/0 <- {"connector_name":"a","payment_methods_enabled":[{"payment_method":"card","payment_method_types":[|4095*{"payment_method_type":"credit"},|{"payment_method_type":"credit"}]},{"payment_method":"wallet","payment_method_types":[{}]}]}
---- <- {"connector_name":"a","disabled":true,"payment_methods_enabled":[{"payment_method":"card","payment_method_types":[|4095*{"payment_method_type":"debit"},|{"payment_method_type":"debit"}]}]},{"connector_name":"b","payment_methods_enabled":[{"payment_method":"card","payment_method_types":[]}]}
5/1/payment_methods_enabled/0/payment_method_types/0 <- {"connector_name":"a","disabled":true,"payment_methods_enabled":[{"payment_method":"card","payment_method_types":[|4095*{"payment_method_type":"debit"},|{"payment_method_type":"debit"}]}]},{"connector_name":"b","payment_methods_enabled":[{"payment_method":"card","payment_method_types":[{"payment_method_type":"debit"}]}]}
===
built in
 <- [{"connector_name":"stripe","merchant_connector_id":"mca_1","disabled":false,"payment_methods_enabled":[{"payment_method":"card","payment_method_types":[{"payment_method_type":"credit","card_networks":["Visa","Mastercard"],"accepted_currencies":{"type":"enable_only","list":["USD","EUR"]},"accepted_countries":null,"minimum_amount":100,"maximum_amount":1000000,"recurring_enabled":true}]}]}]
{"payment_method":"card","payment_method_type":"credit",@}

+++ <- "card_network":"Visa","currency":"USD","amount":100
--- <- "card_network":"Visa","currency":"USD","amount":99
--- <- "card_network":"Visa","currency":"GBP","amount":100
--- <- "currency":"USD","amount":100
--- <- "card_network":"JCB","currency":"USD","amount":100
--- <- "card_network":"Visa","amount":100
--- <- "card_network":"Visa","currency":"USD"
+++ <- "card_network":"Mastercard","currency":"EUR","amount":1000000
--- <- "card_network":"Mastercard","currency":"EUR","amount":1000001
+++ <- "card_network":"Visa","currency":"USD","amount":100,"billing_country":"US","card_bin":"4","metadata":{"a":"b"}
===
built in
 <- [{"connector_name":"stripe","merchant_connector_id":"mca_1","disabled":@,"payment_methods_enabled":[{"payment_method":"card","payment_method_types":[{"payment_method_type":"credit","card_networks":["Visa","Mastercard"],"accepted_currencies":{"type":"enable_only","list":["USD","EUR"]},"accepted_countries":null,"minimum_amount":100,"maximum_amount":1000000,"recurring_enabled":true}]}]}]
{"payment_method":"card","payment_method_type":"credit","card_network":"Visa","currency":"USD","amount":100}

--- <- true
+++ <- false
+++ <- null
===
built in
 <- [{"connector_name":"stripe","merchant_connector_id":"mca_1","disabled":false,"payment_methods_enabled":[{"payment_method":"card","payment_method_types":[{"payment_method_type":"credit","card_networks":["Visa","Mastercard"],"accepted_currencies":{"type":"disable_only","list":["USD"]},"accepted_countries":null,"minimum_amount":100,"maximum_amount":1000000,"recurring_enabled":true}]}]}]
{"payment_method":"card","payment_method_type":"credit","card_network":"Visa","amount":100@}

+++ <- ,"currency":null
--- <- ,"currency":"USD"
+++ <- ,"currency":"EUR"
===
built in
 <- [{"connector_name":"a","payment_methods_enabled":[{"payment_method":"card","payment_method_types":[{"payment_method_type":"credit"}]}]}]
@

+++ <- {"payment_method":"card","payment_method_type":"credit"}
+++ <- {"payment_method":"card","payment_method_type":"credit","card_network":"JCB","authentication_type":"three_ds","capture_method":"manual","currency":"USD","billing_country":"US","amount":0,"business_label":""}
--- <- {"payment_method":"wallet","payment_method_type":"credit"}
--- <- {"payment_method":"card","payment_method_type":"debit"}
--- <- {"payment_method_type":"credit"}
--- <- {"payment_method":"card"}
--- <- {}
===
built in
 <- [{"connector_name":"a","payment_methods_enabled":[{"payment_method":"card","payment_method_types":[{"payment_method_type":"credit","minimum_amount":10}]}]},{"connector_name":"b","payment_methods_enabled":[{"payment_method":"card","payment_method_types":[{"payment_method_type":"credit","maximum_amount":10}]}]},{"connector_name":"c","payment_methods_enabled":[{"payment_method":"card","payment_method_types":[{"payment_method_type":"credit","minimum_amount":10,"maximum_amount":10}]}]},{"connector_name":"d","payment_methods_enabled":[{"payment_method":"card","payment_method_types":[{"payment_method_type":"credit","minimum_amount":-5}]}]}]
{"payment_method":"card","payment_method_type":"credit"@}

------ <- ,"amount":null
++-+-+ <- ,"amount":0
++-+-+ <- ,"amount":9
++++++ <- ,"amount":10
+++--+ <- ,"amount":11
+++--+ <- ,"amount":9223372036854775807
===
built in
 <- [{"connector_name":"a","payment_methods_enabled":[{"payment_method":"card","payment_method_types":[{"payment_method_type":"credit","accepted_currencies":{"type":"enable_only","list":["USD","NOK"]}}]}]},{"connector_name":"b","payment_methods_enabled":[{"payment_method":"card","payment_method_types":[{"payment_method_type":"credit","accepted_currencies":{"type":"disable_only","list":["USD","NOK"]}}]}]},{"connector_name":"c","payment_methods_enabled":[{"payment_method":"card","payment_method_types":[{"payment_method_type":"credit","accepted_currencies":{"type":"enable_only","list":[]}}]}]},{"connector_name":"d","payment_methods_enabled":[{"payment_method":"card","payment_method_types":[{"payment_method_type":"credit","accepted_currencies":{"type":"disable_only","list":[]}}]}]},{"connector_name":"e","payment_methods_enabled":[{"payment_method":"card","payment_method_types":[{"payment_method_type":"credit","accepted_currencies":{"type":"all_accepted"}}]}]}]
{"payment_method":"card","payment_method_type":"credit"@}

++-+-++ <- ,"currency":null
+++--++ <- ,"currency":"USD"
+++--++ <- ,"currency":"NOK"
++-+-++ <- ,"currency":"EUR"
===
built in
 <- [{"connector_name":"a","payment_methods_enabled":[{"payment_method":"card","payment_method_types":[{"payment_method_type":"credit","accepted_countries":{"type":"enable_only","list":["US","NO"]}}]}]},{"connector_name":"b","payment_methods_enabled":[{"payment_method":"card","payment_method_types":[{"payment_method_type":"credit","accepted_countries":{"type":"disable_only","list":["US","NO"]}}]}]},{"connector_name":"c","payment_methods_enabled":[{"payment_method":"card","payment_method_types":[{"payment_method_type":"credit","accepted_currencies":{"type":"enable_only","list":["USD"]},"accepted_countries":{"type":"disable_only","list":["US"]}}]}]},{"connector_name":"d","payment_methods_enabled":[{"payment_method":"card","payment_method_types":[{"payment_method_type":"credit","accepted_currencies":{"type":"disable_only","list":["USD"]},"accepted_countries":{"type":"enable_only","list":["US"]}}]}]}]
{"payment_method":"card","payment_method_type":"credit"@}

++-+-- <- ,"billing_country":null
+++--+ <- ,"billing_country":"US"
+++--- <- ,"billing_country":"NO"
++-+-- <- ,"billing_country":"DE"
++-++- <- ,"currency":"USD"
+++--- <- ,"currency":"USD","billing_country":"US"
++-++- <- ,"currency":"USD","billing_country":"DE"
+++--+ <- ,"currency":"EUR","billing_country":"US"
===
built in
 <- [{"connector_name":"a","payment_methods_enabled":[{"payment_method":"card","payment_method_types":[{"payment_method_type":"credit","card_networks":["Visa","JCB"]}]}]},{"connector_name":"b","payment_methods_enabled":[{"payment_method":"card","payment_method_types":[{"payment_method_type":"credit","card_networks":[]}]}]}]
{"payment_method":"card","payment_method_type":"credit"@}

++-+ <- ,"card_network":null
++++ <- ,"card_network":"Visa"
++++ <- ,"card_network":"JCB"
++-+ <- ,"card_network":"Discover"
===
built in
 <- [{"connector_name":"a","disabled":true,"payment_methods_enabled":[{"payment_method":"card","payment_method_types":[{"payment_method_type":"credit"}]}]},{"connector_name":"b","payment_methods_enabled":[{"payment_method":"wallet","payment_method_types":[{"payment_method_type":"google_pay"},{"payment_method_type":"apple_pay"}]},{"payment_method":"bank_transfer"},{"payment_method":"card","payment_method_types":[{"payment_method_type":"debit","accepted_currencies":{"type":"enable_only","list":["EUR"]},"minimum_amount":10},{"payment_method_type":"debit","accepted_currencies":{"type":"enable_only","list":["USD"]}}]},{"payment_method":"wallet","payment_method_types":[{"payment_method_type":"paypal"}]}]},{"connector_name":"c"},{"connector_name":"d","payment_methods_enabled":[{"payment_method":"wallet","payment_method_types":[{"payment_method_type":"apple_pay"}]}]}]
@

------ <- {"payment_method":"card","payment_method_type":"credit"}
++-+-- <- {"payment_method":"wallet","payment_method_type":"google_pay"}
++-+-+ <- {"payment_method":"wallet","payment_method_type":"apple_pay"}
++-+-- <- {"payment_method":"wallet","payment_method_type":"paypal"}
------ <- {"payment_method":"wallet","payment_method_type":"debit","currency":"USD"}
------ <- {"payment_method":"card","payment_method_type":"paypal"}
------ <- {"payment_method":"bank_transfer","payment_method_type":"debit"}
++-+-- <- {"payment_method":"card","payment_method_type":"debit","currency":"USD","amount":9}
------ <- {"payment_method":"card","payment_method_type":"debit","currency":"EUR","amount":9}
++-+-- <- {"payment_method":"card","payment_method_type":"debit","currency":"EUR","amount":10}
------ <- {"payment_method":"card","payment_method_type":"debit","currency":"GBP","amount":10}
------ <- {"payment_method":"card","payment_method_type":"debit","amount":10}
===
built in
 <- [{"connector_name":"a",@}]
{"payment_method":"card","payment_method_type":"credit","card_network":"Visa","currency":"USD","billing_country":"GB","amount":2}

+++ <- "payment_methods_enabled":[{"payment_method":"card","payment_method_types":[|4095*{"payment_method_type":"debit","card_networks":["Visa"],"accepted_currencies":{"type":"enable_only","list":["USD"]},"accepted_countries":{"type":"disable_only","list":["US"]},"minimum_amount":1,"maximum_amount":2},|{"payment_method_type":"credit","card_networks":["Visa"],"accepted_currencies":{"type":"enable_only","list":["USD"]},"accepted_countries":{"type":"disable_only","list":["US"]},"minimum_amount":1,"maximum_amount":2}]}]
++-|254*+|- <- "payment_methods_enabled":[{"payment_method":"card","payment_method_types":[{"payment_method_type":"credit","card_networks":["Visa"],"accepted_currencies":{"type":"enable_only","list":["USD"]},"accepted_countries":{"type":"disable_only","list":["US"]},"minimum_amount":1,"maximum_amount":1}]}]}|254*,{"connector_name":"#","payment_methods_enabled":[{"payment_method":"card","payment_method_types":[{"payment_method_type":"credit","card_networks":["Visa"],"accepted_currencies":{"type":"enable_only","list":["USD"]},"accepted_countries":{"type":"disable_only","list":["US"]},"minimum_amount":1,"maximum_amount":2}]}]}|,{"connector_name":"c","disabled":true,"payment_methods_enabled":[{"payment_method":"card","payment_method_types":[{"payment_method_type":"credit","card_networks":["Visa"],"accepted_currencies":{"type":"enable_only","list":["USD"]},"accepted_countries":{"type":"disable_only","list":["US"]},"minimum_amount":1,"maximum_amount":2}]}]"##;

fn mark(is_so: bool) -> char {
    if is_so { '+' } else { '-' }
}

// The marks of settings on a payment.
fn marks(
    alloc: Global,
    table: &KeyTable,
    settings: &Settings,
    payment: &Payment,
) -> Result<String, NoMemory> {
    let mut marks = String::new(alloc);
    if !settings_fit(table, settings) {
        return Ok(marks);
    }
    marks.push(mark(takes(table, settings, payment)))?;
    let made = graph_of(alloc, table, settings)?;
    marks.push(mark(holds(alloc, &made.graph, made.goal, payment)?))?;
    for node in made.per_connector.as_slice() {
        marks.push(mark(holds(alloc, &made.graph, *node, payment)?))?;
    }
    Ok(marks)
}

// What a file is.
fn judged(
    alloc: Global,
    table: &KeyTable,
    place: &str,
    file: &str,
    payment: &Payment,
) -> Result<String, NoMemory> {
    match read_settings(alloc, table, file.as_bytes()) {
        Ok(settings) => marks(alloc, table, &settings, payment),
        Err(Stop::Memory) => Err(NoMemory),
        Err(Stop::Fault(SettingsError { code, path })) => {
            let below = path.as_str().strip_prefix(place).unwrap_or("?");
            Ok(format!(in alloc; "{code}{below}")?)
        }
    }
}

fn key_table(alloc: Global, keys: &str) -> Option<KeyTable> {
    match keys {
        "built in" => KeyTable::built_in(alloc).ok(),
        _ => KeyTable::from_toml(alloc, keys.as_bytes()).ok(),
    }
}

// What the file of a case is with a part of it.
fn judged_with(alloc: Global, case: &str, part: &str) -> Option<String> {
    let case = case.replace(alloc, "@", part).ok()?;
    let (keys, rest) = case.split_once('\n')?;
    let (files, payment) = rest.split_once('\n')?;
    let (place, file) = files.split_once(" <- ")?;
    let table = key_table(alloc, keys)?;
    let payment = read_payment(alloc, &table, payment.as_bytes()).ok()?;
    judged(alloc, &table, place, file, &payment).ok()
}

#[test]
fn settings_take_payments(rt: HostRuntime) -> Result<(), Fail> {
    let alloc = rt.alloc();
    for section in expanded(alloc, CASES)?.split("\n===\n") {
        let (case, lines) = section.split_once("\n\n").ok_or(section)?;
        for line in lines.lines() {
            let (wanted, part) = line.split_once(" <- ").ok_or(line)?;
            let found = judged_with(alloc, case, part).ok_or(line)?;
            assert_eq!(rt; found.as_str(), wanted, "at {line}");
        }
    }
    Ok(())
}
