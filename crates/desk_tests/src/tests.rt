mod desk;
mod gate;
mod ledger;
mod link;
mod plans;
mod replay;
mod site;
